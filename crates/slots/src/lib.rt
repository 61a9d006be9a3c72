// One slot, read where it stands: nothing here writes.
#![tactic(auto)]

use profile::sizes::SLOT_BYTES;

pub mod place; // place.rt: the place of a record
pub mod head; // head.rt: the numbers at the front of a slot
pub mod well; // well.rt: a well-formed slot

// The bytes of a slot (PROFILE 2.2).
pub type Slot = [u8; SLOT_BYTES];
