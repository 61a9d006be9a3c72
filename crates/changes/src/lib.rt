// Every change of one slot in the middle of the lent table. The slot's part is lent on to a function that clears it or
// stores into it; no byte of another slot changes, and no slot is copied. Each function cuts the part itself: of a part of the table that
// another function lends to be changed, nothing is known of what the table ends as.
#![tactic(auto)]

ghost use Rattle.std.specs.Prelude.{◌≡◌, ◌++◌, ◌+◌, ◌*◌, ◌≤◌, ◌<◌, length, take, drop, set};
ghost use Rattle.profile.specs.Bytes.{zeros};
ghost use Rattle.profile.specs.Sizes.{slot_size, hash_size, most_hashes, most_payload};
ghost use Rattle.profile.specs.Slot.{recount, reserved, enabled, disabled, empty, taken};
ghost use Rattle.profile.specs.Table.{place_of, handle_of, right_of, slot_count, slots_of, table_of};
ghost use Rattle.changes.specs.Change.{slot_at, Has, right_from};

use profile::Count;
use profile::sizes::{HANDLE_BYTES, KEY_BYTES, SLOT_BYTES};

mod fields; // fields.rt: a slot's fields written where they stand
mod slot; // slot.rt: a slot's bytes changed from one record's to another's

// Every byte of slot i becomes zero, whatever it was, so that no key stays readable.
pub fn wipe_slot(t: &mut [u8], i: usize)
    requires { i < slot_count t.old }
    ensures { t.new ≡ take (slot_size * i) t.old ++ (zeros slot_size ++ drop (slot_size * i + slot_size) t.old) }
{
    let from = SLOT_BYTES * i;
    zeros::clear(&mut t[from..from + SLOT_BYTES]);
}

// PROFILE 5.6, 5.7: of a well-formed table the slot is empty then. Apart from `wipe_slot`, which promises its bytes of any table.
pub fn clear_slot(t: &mut [u8], i: usize)
    requires { Has t.old i }
    ensures { t.new ≡ table_of (set (slots_of t.old) i empty) }
{
    wipe_slot(t, i);
}

// PROFILE 5.1: an empty slot becomes a reservation, whose length is the room asked for.
pub fn store_reservation(t: &mut [u8], i: usize, h: [u8; HANDLE_BYTES], n: u16)
    requires { Has t.old i × (place_of (slot_at t.old i) ≡ 0) }
    ensures { t.new ≡ table_of (set (slots_of t.old) i (taken h (reserved n))) }
{
    let from = SLOT_BYTES * i;
    slot::reserve(&mut t[from..from + SLOT_BYTES], h, n);
}

// PROFILE 5.2: a reservation becomes an enabled record with the request's fields. Hashes and payload go from the request's frame
// straight into the slot; where they stand there is told by offset and lengths, as the reader of requests gives them.
pub fn store_right(
    t: &mut [u8],
    i: usize,
    h: [u8; HANDLE_BYTES],
    key: [u8; KEY_BYTES],
    count: Count,
    hashes: usize,
    src: &[u8],
    at: usize,
    n: usize,
)
    requires { Has t.old i × (place_of (slot_at t.old i) ≡ 1) × (hashes ≤ most_hashes) × (n ≤ most_payload) × (at + hash_size * hashes + n ≤ length src.now) }
    ensures { t.new ≡ table_of (set (slots_of t.old) i (taken h (enabled (right_from key count hashes n src.now at)))) }
{
    let from = SLOT_BYTES * i;
    slot::install(
        &mut t[from..from + SLOT_BYTES],
        h,
        key,
        count,
        hashes,
        src,
        at,
        n,
    );
}

// PROFILE 5.3, 5.4: the record is disabled under the new handle, and nothing else of it changes.
pub fn relabel(t: &mut [u8], i: usize, k: [u8; HANDLE_BYTES])
    requires { Has t.old i × (place_of (slot_at t.old i) ≡ 2) }
    ensures { t.new ≡ table_of (set (slots_of t.old) i (taken k (disabled (right_of (slot_at t.old i))))) }
{
    let from = SLOT_BYTES * i;
    slot::lend(&mut t[from..from + SLOT_BYTES], k);
}

// PROFILE 5.5: a disabled record is enabled with the request's count, and nothing else of it changes.
pub fn give_back(t: &mut [u8], i: usize, count: Count)
    requires { Has t.old i × (place_of (slot_at t.old i) ≡ 3) }
    ensures { t.new ≡ table_of (set (slots_of t.old) i (taken (handle_of (slot_at t.old i)) (enabled (recount count (right_of (slot_at t.old i)))))) }
{
    let from = SLOT_BYTES * i;
    slot::enable(&mut t[from..from + SLOT_BYTES], count);
}
