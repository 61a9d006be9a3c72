// Bytes read: arrays by value, and comparison.
#![tactic(auto)]

pub mod arrays; // arrays.rt: handles, keys and hashes as arrays by value
pub mod compare; // compare.rt: bytes compared where they stand
