// Marks: one byte for each slot's handle, side by side. Handles with different marks differ, so that most handles of a table are told
// apart by a few bytes that are compared at once.
ghost use Rattle.std.specs.Prelude.{◌≡◌, nat_eq};
ghost use Rattle.tables.specs.Marks.{mark_in, times_of, Marked};

use profile::slot::KEY_AT;
use slots::Slot;

// As many as fill a vector of the machine: one for each slot of a table, and one to spare.
pub(crate) const MARKS: usize = 16;

// The mark of a slot: the last two bytes of its handle in one, since most handles that were counted up differ in one of them alone.
pub(crate) fn mark_of(s: &Slot) -> u8
    ensures { result ≡ mark_in s.now }
{
    s[KEY_AT - 2] ^ s[KEY_AT - 1]
}

// The marks of the slots; of more slots than any table has, marks of which none stands once.
pub(crate) fn marks_of(slots: &[Slot]) -> [u8; MARKS]
    ensures { Marked slots.now result }
{
    let mut marks = [0u8; MARKS];
    if MARKS < slots.len() {
        return marks;
    }
    for (i, s) in slots.iter().enumerate() {
        marks[i] = mark_of(s);
    }
    marks
}

// Whether a mark stands once among some. All are looked at, so that they are compared at once, as a chain that filters does not.
pub(crate) fn stands_once(marks: &[u8; MARKS], mark: u8) -> bool
    ensures { result ≡ nat_eq (times_of mark marks.now) 1 }
{
    let mut found: u8 = 0;
    for i in 0..MARKS {
        if marks[i] == mark {
            found += 1;
        }
    }
    found == 1
}
