// The rows that set what later lines are read under: pcc, pce, positions, addresses.
ghost use Rattle.std.specs.Prelude.{◌≡◌};
ghost use Rattle.command.specs.Commands.{command_of};
ghost use Rattle.command_rows.specs.Rows.{set};
ghost use Rattle.console_state.specs.Rooms.{Rooms};
ghost use Rattle.console_dialogue.specs.Turns.{Does};

use crate::turn::{Turn, ended};
use command::Command;
use command_rows::Setting;
use console_state::{State, with_given, with_pcc, with_pce, with_positions};

pub fn set(
    row: Setting,
    state: State,
    c: Command,
    line: &[u8],
    n: u64,
    store: &[u8],
    memory: &mut [u8],
    room: &mut [u8],
    out: &mut [u8],
) -> Turn
    requires { (c ≡ command_of line.now) × (c.verb ≡ set row) × Rooms line.now store.now memory.old room.old out.old }
    ensures done { Does state store.now memory.old line.now n
        result.state store.now memory.new out.old out.new result.end }
{
    match row {
        Setting::Pcc => {
            let o = console_routes::heard(state.positions, line, room);
            ended(with_pcc(state, o), console_fields::opened(out, o))
        }
        Setting::Pce => {
            let o = console_routes::heard(state.positions, line, room);
            ended(with_pce(state, o), console_fields::opened(out, o))
        }
        Setting::Positions => ended(
            with_positions(state, c.one, c.two),
            console_accepted::done(out),
        ),
        Setting::Addresses => {
            let given = console_routes::addressed(line, memory);
            ended(with_given(state, given), console_accepted::done(out))
        }
    }
}
