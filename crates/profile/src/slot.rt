// The offsets of the fields of a slot (PROFILE 2.2). Byte 0 has the place and the hash count.
pub const HANDLE_AT: usize = 1;

pub const KEY_AT: usize = 11;

pub const COUNT_AT: usize = 27;

pub const LENGTH_AT: usize = 29;

pub const HASHES_AT: usize = 31;

// The byte between hashes and payload, which is always zero.
pub const GAP_AT: usize = 191;

pub const PAYLOAD_AT: usize = 192;
