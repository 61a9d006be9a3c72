// The request reader: a frame is a request with its fields, or has exactly one refusal.
#![tactic(auto)]

pub mod asked; // asked.rt: the reader's answer, an enum with the arrays beside it
pub mod reader; // reader.rt: the tests, in the profile's order
