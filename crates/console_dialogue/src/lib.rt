// The console: one command to a line of standard input, one line of answer for each on standard output (console.md).
//
// A line is what lies between two newlines. Of a line that is too long only the start is kept, one octet more than the longest line may have. It is read by
// `command::parse`, its call is made through the library, and what that answers is laid at the start of `out` (`answered`). `memory` is where the writer's buffer
// lies, at its start, and behind its 65,536 octets the head end's addresses; `room` takes the octets that the line spells. What was read is taken in a line at a time
// (`take_in`), and each answer that this lays is written as it stands.
//
// What is read and what is written no contract can say. Proved is that the console stands at every time as some input leaves it (`Reached`), and, in `take_in`, that
// the octets handed to be written are, one answer behind the other, what the console says to the octets that were read (`say_all`). Not proved: that these are the
// octets of standard input, that a write reaches standard output, and that the reading goes on to the input's end.
#![tactic(auto)]

mod heard;
mod line;
mod listening;
mod onward;
mod reply;
mod setting;
mod turn;

pub use heard::Hearing;
pub use listening::converse;
pub use onward::take_in;
pub use reply::answered;
