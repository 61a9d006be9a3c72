// Slots under a handle. Handles are compared where they stand in their slots, up to the first byte that differs.
ghost use Rattle.std.specs.Prelude.{◌≡◌, map, position};
ghost use Rattle.profile.specs.Slot.{named, in_use};
ghost use Rattle.profile.specs.Table.{unpack, slots_of};

use crate::part::slots_in;
use profile::sizes::HANDLE_BYTES;
use profile::slot::HANDLE_AT;
use slots::Slot;
use slots::place::{Place, place_of};

// An empty slot is under no handle, not even ten zero bytes (PROFILE 2.3). The place is looked at last, since most handles differ in
// the byte that is compared first.
fn is_under(s: &Slot, h: &[u8; HANDLE_BYTES]) -> bool
    ensures { result ≡ named h.now (unpack s.now) }
{
    octets::compare::same_from(h, s, HANDLE_AT) && place_of(s) != Place::Empty
}

// The first of some slots that is under a handle.
pub(crate) fn first_under(slots: &[Slot], h: &[u8; HANDLE_BYTES]) -> Option<usize>
    ensures { result ≡ position (named h.now) (map unpack slots.now) }
{
    slots.iter().position(|s| is_under(s, h))
}

// Whether a handle is in use in some slots.
pub(crate) fn used_in(slots: &[Slot], h: &[u8; HANDLE_BYTES]) -> bool
    ensures { result ≡ in_use h.now (map unpack slots.now) }
{
    slots.iter().any(|s| is_under(s, h))
}

// Whether any slot that is not empty has the handle, whatever its place: status 5 (PROFILE 4.2).
pub fn in_use(t: &[u8], h: [u8; HANDLE_BYTES]) -> bool
    ensures { result ≡ in_use h (slots_of t.now) }
{
    used_in(slots_in(t), &h)
}
