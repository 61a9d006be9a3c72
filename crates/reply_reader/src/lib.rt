// The device's reply reader: 203, or kind, status and fields.
#![tactic(auto)]

pub mod answer; // answer.rt: what a reply tells
mod shape; // shape.rt: whether a frame is a reply, and a body of its kind's shape
pub mod reader; // reader.rt: a reply read
