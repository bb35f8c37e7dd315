// What the calls of writing and next hand back, as records that cross the border (include/strundevi.h).
#![tactic(auto)]

mod change;
mod writing;

pub use change::{ChangeRecord, change_out};
pub use writing::{WriterRecord, WrittenRecord, writer_in, written_out};
