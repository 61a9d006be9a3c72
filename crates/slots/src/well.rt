// When a slot is well formed (PROFILE 2.4).
ghost use Rattle.std.specs.Prelude.{◌≡◌, ◌≤◌, ◌<◌};
ghost use Rattle.profile.specs.Table.{place_of, well_count, well_rest};
ghost use Rattle.slots.specs.Heads.{HeadOf};
ghost use Rattle.slots.specs.Rules.{low_by, well_by};
ghost use Rattle.slots.specs.Taken.{payload_in, awaits_well};

use crate::Slot;
use crate::head::{Head, head_of};
use crate::place::{Place, place_of};
use profile::sizes::{HASH_BYTES, MOST_HASHES, MOST_PAYLOAD, SLOT_BYTES};
use profile::slot::{COUNT_AT, HASHES_AT, KEY_AT, LENGTH_AT, PAYLOAD_AT};

// The rules that a slot is held to: those of today, or those from before counts had their bit (PROFILE 2.7).
#[derive(Clone, Copy)]
pub enum Rules {
    Today,
    Before,
}

// How many payload bytes of a record may be other than 0. The length of a reservation is the room asked for: it has no payload yet.
fn payload_in(place: Place, length: usize) -> usize
    ensures { (result ≡ payload_in place length) × (result ≤ length) }
{
    match place {
        Place::Reserved => 0,
        _ => length,
    }
}

// A reservation has no hash, and its key and count are zero.
fn awaits_well(s: &Slot, place: Place, hashes: usize) -> bool
    ensures { result ≡ awaits_well place hashes s.now }
{
    match place {
        Place::Reserved => (hashes == 0) & zeros::zero_part(s, KEY_AT, LENGTH_AT),
        _ => true,
    }
}

// The rules for a slot that is not empty, but for the two lowest bits of byte 0: the bytes between the last hash and the payload,
// and those after the payload are zero; hash count and length are in bounds. Only the tests that bound a part return at once.
fn well_taken(s: &Slot, head: Head) -> bool
    requires { HeadOf s.now head × (0 < place_of s.now) }
    ensures { result ≡ well_rest s.now }
{
    let place = head.place;
    let hashes = head.hashes;
    let length = head.length;
    if hashes > MOST_HASHES {
        return false;
    }
    if length > MOST_PAYLOAD {
        return false;
    }
    let payload = payload_in(place, length);
    let gap = zeros::zero_part(s, HASHES_AT + HASH_BYTES * hashes, PAYLOAD_AT);
    let rest = zeros::zero_part(s, PAYLOAD_AT + payload, SLOT_BYTES);
    let awaits = awaits_well(s, place, hashes);
    gap & rest & (0 < length) & awaits
}

// All but the two lowest bits of byte 0. All bytes of an empty slot are zero; any other slot has a record.
fn well_rest(s: &Slot) -> bool
    ensures { result ≡ well_rest s.now }
{
    let head = head_of(s);
    if head.place == Place::Empty {
        return zeros::all_zero(s);
    }
    well_taken(s, head)
}

// The bit of a count. Empty and reserved slots keep none; in any other slot the bit and the number say a count (PROFILE 2.6).
fn well_count(s: &Slot) -> bool
    ensures { result ≡ well_count s.now }
{
    let kept = bits::fields::slot_kept(s[0]);
    match place_of(s) {
        Place::Empty | Place::Reserved => kept == 0,
        _ => counts::count_holds(kept, words::word_at(s, COUNT_AT)),
    }
}

// The two lowest bits of byte 0: today the bit of a count and a spare bit. Before, both were to spare (PROFILE 2.7).
fn well_low(s: &Slot, rules: Rules) -> bool
    ensures { result ≡ low_by rules s.now }
{
    let spare = bits::fields::slot_spare(s[0]);
    match rules {
        Rules::Before => (bits::fields::slot_kept(s[0]) == 0) & (spare == 0),
        Rules::Today => (spare == 0) & well_count(s),
    }
}

// By either rules.
pub fn well_slot(s: &Slot, rules: Rules) -> bool
    ensures { result ≡ well_by rules s.now }
{
    let low = well_low(s, rules);
    let rest = well_rest(s);
    low & rest
}
