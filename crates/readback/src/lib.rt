// What is written is read back, and what is read is written back: theorems over the definitions that the
// contracts of the writer and of the reader cite. There is no code here.
#![tactic(auto)]
