// A tally brought up to date: the new numbers come from the old ones and the one slot that changed (PROFILE 2.8).
ghost use Rattle.std.specs.Prelude.{◌≡◌};
ghost use Rattle.tallies.specs.Changes.{updated as updated_of, Updates};

use crate::share::{less, plus, share};
use profile::{Count, Tally};
use slots::place::Place;

// What a request did to the slots: none is in another place; or one is, with its place and length before and after. Of a right that is
// returned, from disabled to enabled, length and count are told, before and after (PROFILE 4.4).
#[derive(Clone, Copy)]
pub enum Change {
    Same,
    Moved(Place, u16, Place, u16),
    Returned(u16, Count, u16, Count),
}

// The tally after a change: what the slot counted for is taken off, and what it counts for then is put on.
pub fn updated(t: Tally, change: Change) -> Tally
    requires { Updates t change }
    ensures { result ≡ updated_of t change }
{
    match change {
        Change::Same => t,
        Change::Moved(was, length, is, size) => {
            plus(less(t, share(was, length)), share(is, size))
        }
        Change::Returned(length, _, size, _) => plus(
            less(t, share(Place::Disabled, length)),
            share(Place::Enabled, size),
        ),
    }
}
