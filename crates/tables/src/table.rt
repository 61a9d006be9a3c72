// When a table of slots is well formed (PROFILE 2.5).
ghost use Rattle.std.specs.Prelude.{◌≡◌, ◌<◌, length, drop, map};
ghost use Rattle.profile.specs.Bytes.{all};
ghost use Rattle.profile.specs.Slot.{distinct};
ghost use Rattle.profile.specs.Table.{unpack, well_table};
ghost use Rattle.slots.specs.Rules.{well_by};
ghost use Rattle.tables.specs.Again.{again};
ghost use Rattle.tables.specs.Judged.{table_by};
ghost use Rattle.tables.specs.Marks.{Marked};

use crate::handle::used_in;
use crate::marks::{MARKS, mark_of, marks_of, stands_once};
use crate::part::slots_in;
use profile::slot::{HANDLE_AT, KEY_AT};
use slots::Slot;
use slots::place::{Place, place_of};
use slots::well::{Rules, well_slot};

// Each slot is well formed, by either rules.
fn all_well(slots: &[Slot], rules: Rules) -> bool
    ensures { result ≡ all (well_by rules) slots.now }
{
    slots.iter().all(|s| well_slot(s, rules))
}

// Whether a later slot has the handle of slot i too. Where its mark stands once among all marks, none has; else it is looked for.
fn stands_again(slots: &[Slot], marks: &[u8; MARKS], i: usize) -> bool
    requires { (i < length slots.now) × Marked slots.now marks.now }
    ensures { result ≡ again (map unpack (drop i slots.now)) }
{
    let s = &slots[i];
    let handle = s[HANDLE_AT..KEY_AT].as_array().unwrap();
    place_of(s) != Place::Empty
        && !stands_once(marks, mark_of(s))
        && used_in(&slots[i + 1..], handle)
}

// No two slots that are not empty have one handle: each is held against those after it.
fn all_distinct(slots: &[Slot]) -> bool
    ensures { result ≡ distinct (map unpack slots.now) }
{
    let marks = marks_of(slots);
    (0..slots.len()).all(|i| !stands_again(slots, &marks, i))
}

// The slots, and then their handles, by either rules; a table for which this is false is refused with 103.
pub fn well_by(t: &[u8], rules: Rules) -> bool
    ensures { result ≡ table_by rules t.now }
{
    let slots = slots_in(t);
    all_well(slots, rules) && all_distinct(slots)
}

// By the rules of today.
pub fn well_table(t: &[u8]) -> bool
    ensures { result ≡ well_table t.now }
{
    well_by(t, Rules::Today)
}
