// What is decided of a request before anything is changed: the slot that it is about, or its refusal. Nothing here writes.
#![tactic(auto)]

pub mod decision; // decision.rt: the record under a handle, and whether its place is taken
pub mod lending; // lending.rt: what kinds 3 and 4 test
