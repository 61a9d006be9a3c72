// Sizes in bytes, and how many there may be (PROFILE 1.3).
pub const SLOT_BYTES: usize = 4288;

pub const MOST_SLOTS: usize = 15;

// The longest reply, and so the least reply buffer.
pub const REPLY_ROOM: usize = 4279;

pub const MOST_PAYLOAD: usize = 4096;

pub const HANDLE_BYTES: usize = 10;

pub const KEY_BYTES: usize = 16;

pub const HASH_BYTES: usize = 20;

pub const MOST_HASHES: usize = 8;

// A total has at most so many counted returns, and each adds or takes off at most so much (PROFILE 4.5).
pub const MOST_RETURNS: u16 = 30000;

pub const MOST_CHANGE: i32 = 65535;
