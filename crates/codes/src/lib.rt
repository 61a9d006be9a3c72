// The profile's codes as enums: each case has the number that stands for it in a frame, a reply, a report, or as what a function gives.
#![tactic(auto)]

pub mod kind; // kind.rt: the nine kinds
pub mod refusal; // refusal.rt: why a request is refused, by the status of its reply
pub mod fault; // fault.rt: why a function refuses what it is lent or given, by its number
pub mod finding; // finding.rt: what a salvage finds of a slot, by its byte
