// The record under a handle.
ghost use Rattle.std.specs.Prelude.{◌≡◌};
ghost use Rattle.profile.specs.Table.{slots_of};
ghost use Rattle.profile.specs.Agent.{find};
ghost use Rattle.tables.specs.LookUp.{found_at};

use profile::sizes::HANDLE_BYTES;
use slots::place::{Place, place_of};

// A record, by the number of its slot and its place.
#[derive(Clone, Copy)]
pub struct Record {
    pub at: usize,
    pub place: Place,
}

// The record under the request's handle, in the first slot that has it: a well-formed table has no second one (PROFILE 2.5).
pub fn look_up(t: &[u8], h: [u8; HANDLE_BYTES]) -> Option<Record>
    ensures { result ≡ found_at (find h (slots_of t.now)) }
{
    let slots = crate::part::slots_in(t);
    let at = crate::handle::first_under(slots, &h)?;
    Some(Record {
        at,
        place: place_of(&slots[at]),
    })
}
