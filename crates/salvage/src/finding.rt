// What is found of one slot (PROFILE 2.10).
ghost use Rattle.std.specs.Prelude.{◌≡◌, [], ◌*◌, ◌<◌, get_or, take};
ghost use Rattle.codes.specs.Codes.{finding_meant};
ghost use Rattle.profile.specs.Table.{slot_count, slot_bytes, slots_of};
ghost use Rattle.profile.specs.Salvage.{judge};

use codes::finding::Finding;
use profile::sizes::SLOT_BYTES;
use profile::slot::HANDLE_AT;

// The slot is judged by itself, as a table of one slot, and then beside the slots below it. An empty slot is well formed and has no handle.
// Those below have been settled before: what was damaged is empty by now, and whatever has a handle is kept.
pub(crate) fn find(t: &[u8], i: usize) -> Finding
    requires { i < slot_count t.now }
    ensures { finding_meant result ≡ judge (take i (slots_of t.now)) (get_or (slot_bytes t.now) i []) }
{
    let s = tables::part::slot_at(t, i);
    if !tables::table::well_table(s) {
        return Finding::Damaged;
    }
    if bits::fields::slot_place(s[0]) == 0 {
        return Finding::Kept;
    }
    let below = SLOT_BYTES * i;
    if tables::handle::in_use(&t[..below], octets::arrays::array_at(s, HANDLE_AT)) {
        return Finding::Repeated;
    }
    Finding::Kept
}
