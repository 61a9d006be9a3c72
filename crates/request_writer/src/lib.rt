// The device's request writer: a kind and fields into a lent buffer.
#![tactic(auto)]

mod frames; // frames.rt: frames written part by part
pub mod writer; // writer.rt: the numbers 202, 201 and 0
