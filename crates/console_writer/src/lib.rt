// The console's commands about the writer: begin, add, finish, lent (console.md). `memory` is where the writer's
// buffer lies, at its start; `room` takes the octets that the line spells.
#![tactic(auto)]

mod begin;
mod end;
mod grow;
mod wrote;

pub use begin::begun;
pub use end::{finished, shown};
pub use grow::added;
pub use wrote::Composed;
