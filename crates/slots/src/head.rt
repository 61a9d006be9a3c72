// The head of a slot: what it says besides its handle, key, hashes and payload.
ghost use Rattle.std.specs.Prelude.{◌≡◌};
ghost use Rattle.profile.specs.Table.{count_of};
ghost use Rattle.slots.specs.Heads.{HeadOf};

use crate::Slot;
use crate::place::{Place, place_of};
use profile::Count;
use profile::slot::{COUNT_AT, LENGTH_AT};

#[derive(Clone, Copy)]
pub struct Head {
    pub place: Place,
    pub hashes: usize,
    pub count: Count,
    pub length: usize,
}

// The count of a slot: its bit is in byte 0, its number has 16 bits (PROFILE 2.6).
pub fn count_of(s: &Slot) -> Count
    ensures { result ≡ count_of s.now }
{
    counts::count_with(bits::fields::slot_kept(s[0]), words::word_at(s, COUNT_AT))
}

// Place, hash count and the bit of the count are in byte 0; the count's number and the payload length have 16 bits (PROFILE 2.2).
pub fn head_of(s: &Slot) -> Head
    ensures { HeadOf s.now result }
{
    Head {
        place: place_of(s),
        hashes: usize::from(bits::fields::slot_hashes(s[0])),
        count: count_of(s),
        length: usize::from(words::word_at(s, LENGTH_AT)),
    }
}
