// What a reply tells: an enum of numbers and offsets, with the key beside it.
use codes::kind::Kind;
use codes::refusal::Refusal;
use profile::Count;
use profile::sizes::KEY_BYTES;

// The cases of a reply that is accepted (PROFILE 6.3). Offsets count from the frame's first byte. A request may be refused whatever its
// kind, so there `kind` is a number of five bits. What each case means is said by `meant` in specs/Told.
#[derive(Clone, Copy)]
pub enum Answer {
    Failed {
        kind: u8,
        refusal: Refusal,
    },
    Nothing {
        kind: Kind,
    },
    Right {
        count: Count,
        hashes: usize,
        hashes_at: usize,
        payload_at: usize,
        payload_length: usize,
    },
    Key,
    Handles {
        more: bool,
        handles: usize,
        handles_at: usize,
    },
    Counted {
        count: Count,
        payload_at: usize,
        payload_length: usize,
    },
}

// The key of kinds 3 and 4; with any other answer it is all zero.
#[derive(Clone, Copy)]
pub struct Told {
    pub answer: Answer,
    pub key: [u8; KEY_BYTES],
}
