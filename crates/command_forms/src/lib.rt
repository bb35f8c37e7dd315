// The commands of the console: their names, and the form of the words behind them (console.md, the table of
// commands). A name that is none is `Bad`.
#![tactic(auto)]

mod form;
mod kind;
mod verb;

pub use form::is_formed;
pub use kind::{Kind, MOST_SIZE};
pub use verb::{ERO, Verb};
