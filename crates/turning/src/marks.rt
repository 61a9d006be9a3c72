// The slots of a table, turned where they stand (PROFILE 2.7).
ghost use Rattle.std.specs.Prelude.{◌≡◌, map, true, length};
ghost use Rattle.profile.specs.Bytes.{all, joined};
ghost use Rattle.profile.specs.Sizes.{slot_size};
ghost use Rattle.profile.specs.Table.{kept_of, spare_of, slot_bytes, whole_slots};
ghost use Rattle.profile.specs.Turning.{well_before, turn_slot};

use profile::sizes::SLOT_BYTES;
use profile::slot::COUNT_AT;

// A slot with a count that is not 0 gets the bit; place and hash count stay, and so does every other byte.
// The slot is lent as a slice: no proof says what an array that is lent of a part of the table writes back.
fn mark_slot(s: &mut [u8])
    requires { (length s.old ≡ slot_size) × (kept_of s.old ≡ 0) × (spare_of s.old ≡ 0) }
    ensures { s.new ≡ turn_slot s.old }
{
    if words::word_at(s, COUNT_AT) != 0 {
        let place = bits::fields::slot_place(s[0]);
        let hashes = bits::fields::slot_hashes(s[0]);
        s[0] = bits::fields::slot_head(place, hashes, 1);
    }
}

// Each slot's part of the table is lent on in turn.
pub(crate) fn mark_slots(t: &mut [u8])
    requires { (whole_slots t.old ≡ true) × (all well_before (slot_bytes t.old) ≡ true) }
    ensures { t.new ≡ joined (map turn_slot (slot_bytes t.old)) }
{
    for i in 0..t.len() / SLOT_BYTES {
        let from = SLOT_BYTES * i;
        let to = from + SLOT_BYTES;
        mark_slot(&mut t[from..to]);
    }
}
