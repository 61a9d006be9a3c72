// A running total of changes, with the number of counted returns in it (PROFILE 4.5).
ghost use Rattle.std.specs.Prelude.{◌≡◌, true};
ghost use Rattle.profile.specs.Total.{change, totals_with, totals_hold, with_return};
ghost use Rattle.totals.specs.Returns.{return_said, totals_in};

use profile::sizes::{MOST_CHANGE, MOST_RETURNS};
use tallies::update::Change;

// Total and returns after a call, and its change.
#[derive(Clone, Copy)]
pub struct Added {
    pub total: i32,
    pub returns: u16,
    pub change: i32,
}

// Whether there is room for one more return, and the total can be the sum of so many changes: at most 65,535 for each, either way.
pub fn holds(total: i32, returns: u16) -> bool
    ensures { result ≡ totals_hold (totals_with total returns) }
{
    if MOST_RETURNS <= returns {
        return false;
    }
    let most = i32::from(returns) * MOST_CHANGE;
    (-most <= total) & (total <= most)
}

// With what a call did to the slots: a counted return adds its change, and every other call adds nothing.
pub fn with_return(total: i32, returns: u16, told: Change) -> Added
    requires { totals_hold (totals_with total returns) ≡ true }
    ensures sums { totals_in result ≡ with_return (return_said told) (totals_with total returns) }
    ensures says { result.change ≡ change (return_said told) }
{
    let Some((stored, sent)) = crate::change::counts_in(told) else {
        return Added {
            total,
            returns,
            change: 0,
        };
    };
    let by = crate::change::difference(sent, stored);
    Added {
        total: total + by,
        returns: returns + 1,
        change: by,
    }
}
