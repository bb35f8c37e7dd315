// The console's commands about OPENs and routes: pcc, pce, ero, rro, ero-segment, rro-segment, addresses (console.md).
// `room` takes the octets that the line spells; the head end's addresses lie in `memory`, behind the writer's part.
#![tactic(auto)]

ghost use Rattle.std.specs.Prelude.{◌-◌, ◌*◌, ◌≤◌, ◌≡◌, length, take};
ghost use Rattle.printing.specs.Text.{Behind};
ghost use Rattle.console_lines.specs.Lines.{short};
ghost use Rattle.forms.specs.Forms.{form_of};
ghost use Rattle.console_fields.specs.Shown.{long, segment_line};
ghost use Rattle.command_forms.specs.Forms.{most_size};
ghost use Rattle.console_state.specs.Rooms.{Spells};
ghost use Rattle.console_state.specs.State.{list_in};
ghost use Rattle.console_state.specs.Spelled.{octets_in};
ghost use Rattle.session.specs.Answered.{opened_of};
ghost use Rattle.console_routes.specs.RouteLines.{open_in, route_line, segment_answer};

use command::{Line, octets_at};
use command_forms::MOST_SIZE;
use console_state::RouteLine;
use flag_positions::Positions;
use session::{Carried, OpenRefusal};
use subobject::Segment;
use subobject_strays::Strays;

// `pcc OCTETS`, `pce OCTETS`: the answer to the OPEN of the line.
pub fn heard(p: Positions, line: &[u8], room: &mut [u8]) -> Result<Carried, OpenRefusal>
    requires { Spells line.now room.old }
    ensures read { opened_of result ≡ open_in p line.now }
{
    let n = octets_at(line, 1, room);
    open::read_open(p, &room[..n])
}

// `ero PST OCTETS`, `rro PST OCTETS`
pub fn judged(r: RouteLine<'_>, ero: bool, room: &mut [u8], out: &mut [u8]) -> usize
    requires { Spells r.line.octets.now room.old × (short ≤ length out.old) }
    ensures told { let line = r.entry.line in
        Behind out.old out.new 0 result (route_line line.command line.octets.now ero r.entry.sessions r.entry.addresses.now) }
{
    let Line { command: c, octets } = r.line;
    let n = octets_at(octets, 2, room);
    let answer = route_call::judge(&room[..n], ero, r.sessions, c.one, r.addresses);
    console_state::counted(out, answer)
}

// The line of a segment of the form that a setup type names.
fn shown(out: &mut [u8], g: Segment, x: Strays, pst: u64) -> usize
    requires { long ≤ length out.old }
    ensures told { Behind out.old out.new 0 result (segment_line (form_of pst) g x) }
{
    if pst == objects::MPLS_SETUP {
        return console_fields::segment(out, forms::mpls(), g, x);
    }
    console_fields::segment(out, forms::srv6(), g, x)
}

// `ero-segment PST I OCTETS`, `rro-segment PST I OCTETS`
pub fn picked(r: RouteLine<'_>, ero: bool, room: &mut [u8], out: &mut [u8]) -> usize
    requires { Spells r.line.octets.now room.old × (long ≤ length out.old) }
    ensures told { let line = r.entry.line in
        Behind out.old out.new 0 result (segment_answer line.command line.octets.now ero r.entry.sessions r.entry.addresses.now) }
{
    let Line { command: c, octets } = r.line;
    let n = octets_at(octets, 3, room);
    match route_call::segment(&room[..n], ero, r.sessions, c.one, r.addresses, c.two) {
        Err(refusal) => console_lines::refusal(out, refusal.reason.number(), refusal.place),
        Ok(p) => shown(out, p.segment, p.strays, c.one),
    }
}

// `addresses OCTETS`: the list laid behind the writer's part, and its octets.
pub fn addressed(line: &[u8], memory: &mut [u8]) -> usize
    requires { (most_size ≤ length memory.old) × (length line.now ≤ 2 * (length memory.old - most_size)) }
    ensures list { list_in memory.new result ≡ octets_in line.now 1 }
    ensures writer { take most_size memory.new ≡ take most_size memory.old }
{
    octets_at(line, 1, &mut memory[MOST_SIZE..])
}
