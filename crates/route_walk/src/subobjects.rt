// A nested walk over a route's subobjects and their checks. It stops at the first broken rule, even inside a subobject. What is set and ought to be 0 is no
// broken rule: the subobjects that are stray are counted.
ghost use Rattle.std.specs.Prelude.{◌≡◌};
ghost use Rattle.answers.specs.Verdicts.{verdict_of};
ghost use Rattle.frame.specs.Gathered.{Walkable};
ghost use Rattle.forms.specs.Sized.{Sized};
ghost use Rattle.route_walk.specs.Walk.{walk_of};

use super::order::ORDER;
use answers::{Counts, Refusal};
use forms::Form;

// The first broken rule with the place of its subobject; else an acceptance of `count` segments, with how many of them are stray.
pub fn walk(form: Form, s: &[u8], ero: bool, n: bool, count: usize) -> Result<Counts, Refusal>
    requires { (Sized form) × Walkable s.now }
    ensures walked { verdict_of result ≡ walk_of form s.now ero n count }
{
    let end = s.len();
    let mut at: usize = objects::HEADER;
    let mut stray: usize = 0;
    // No `for`: each subobject says its own length, and the next one begins behind it. The label is the form that document 01 names for this walk.
    'walk: loop {
        if at == end {
            break 'walk Ok(Counts { count, stray });
        }
        let h = subobject::head_at(form, s, ero, at);
        let next = at + h.size;
        for reason in ORDER {
            let number = reason.number();
            if subobject_rules_by_number::breaks(form, h, s, ero, n, at, number) {
                break 'walk Err(Refusal {
                    reason,
                    place: subobject_rules_by_number::place(at, number),
                });
            }
        }
        stray += subobject_strays::stray_of(form, h, s, at);
        at = next;
    }
}
