// Where a table has room.
#![tactic(auto)]

ghost use Rattle.std.specs.Prelude.{◌≡◌, ◌<◌, length, map, nat_eq, MatchOption};
ghost use Rattle.profile.specs.Table.{place_of, unpack, slot_count, slots_of};
ghost use Rattle.profile.specs.Agent.{lowest_empty, first_empty_from};

use slots::Slot;
use slots::place::{Place, place_of};

// Only an empty slot is room: a reserved one is kept for its record (PROFILE 5.1).
fn is_empty(s: &Slot) -> bool
    ensures { result ≡ nat_eq (place_of s.now) 0 }
{
    place_of(s) == Place::Empty
}

// The first empty one of some slots.
fn first_empty(slots: &[Slot]) -> Option<usize>
    ensures { MatchOption result (lowest_empty (map unpack slots.now) ≡ length slots.now) (λ k. (k ≡ lowest_empty (map unpack slots.now)) × (k < length slots.now)) }
{
    slots.iter().position(is_empty)
}

// The slot that a setup takes (PROFILE 5.1): the first empty one on the way from the start round to the slot before it.
pub fn first_empty_from(t: &[u8], start: usize) -> Option<usize>
    requires { start < slot_count t.now }
    ensures { MatchOption result (first_empty_from start (slots_of t.now) ≡ slot_count t.now) (λ i. (i ≡ first_empty_from start (slots_of t.now)) × (i < slot_count t.now)) }
{
    let slots = tables::part::slots_in(t);
    let (before, from) = slots.split_at(start);
    match first_empty(from) {
        Some(k) => Some(start + k),
        None => first_empty(before),
    }
}
