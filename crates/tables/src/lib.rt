// The table of slots, read where it stands: nothing here writes.
#![tactic(auto)]

pub mod part; // part.rt: the table's slots, one by one
pub mod handle; // handle.rt: slots under a handle
mod marks; // marks.rt: handles told apart by one byte each
pub mod table; // table.rt: a well-formed table
pub mod lookup; // lookup.rt: the record under a handle
