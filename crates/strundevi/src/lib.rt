// Every call of documents 01 and 02 for programs in C and Rust (include/strundevi.h, rust/strundevi).
//
// Each function stands for one call and has its whole contract, over records laid out as C lays them out. None allocates,
// none keeps anything between calls, and none asks anything of its caller but buffers that are there and apart. What is
// wrong with a number, a length or a record is refused by the call's own number.
#![tactic(auto)]

mod boards;
mod opens;
mod routes;
mod writing;
