// The slots of a table, each lent as a part of it.
ghost use Rattle.std.specs.Prelude.{◌≡◌, ◌<◌, ◌*◌, length};
ghost use Rattle.profile.specs.Bytes.{part};
ghost use Rattle.profile.specs.Sizes.{slot_size};
ghost use Rattle.profile.specs.Table.{slot_count, slot_bytes, whole_slots};

use profile::sizes::{MOST_SLOTS, SLOT_BYTES};
use slots::Slot;

// Whether the bytes are whole slots, as many as a table may have (PROFILE 2.1); where not, the number is 102. Those who know it say so in a clause:
// the table is lent by C as bytes, and changes where it lies, so that a struct around it would have to be opened and made anew at each change.
pub fn whole_slots(t: &[u8]) -> bool
    ensures { result ≡ whole_slots t.now }
{
    let n = t.len() / SLOT_BYTES;
    (t.len() % SLOT_BYTES == 0) & ((0 < n) & (n <= MOST_SLOTS))
}

// Slot i, lent and not copied. That i is below the number of slots is a fact about this table, which a number cannot carry.
pub fn slot_at(t: &[u8], i: usize) -> &Slot
    requires { i < slot_count t.now }
    ensures { (result.now ≡ part (slot_size * i) slot_size t.now) × (length result.now ≡ slot_size) }
{
    let from = SLOT_BYTES * i;
    let to = from + SLOT_BYTES;
    t[from..to].as_array().unwrap()
}

// All slots, lent and not copied. Bytes after the last whole slot are in none.
pub fn slots_in(t: &[u8]) -> &[Slot]
    ensures { (result.now ≡ slot_bytes t.now) × (length result.now ≡ slot_count t.now) }
{
    t.as_chunks().0
}
