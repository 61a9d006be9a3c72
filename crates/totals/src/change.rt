// What a return did to a count (PROFILE 4.4).
ghost use Rattle.std.specs.Prelude.{◌≡◌, pos, ◌-ℤ◌};
ghost use Rattle.totals.specs.Returns.{return_said, counts_of};

use tallies::update::Change;

// The counts of a call's return, the one stored and the one sent: only a right that was returned has two. Only counts that are kept
// can be subtracted, so a return is counted where both are.
pub fn counts_in(change: Change) -> Option<(u16, u16)>
    ensures { result ≡ counts_of (return_said change) }
{
    let Change::Returned(_, stored, _, sent) = change else {
        return None;
    };
    stored.zip(sent)
}

// The count sent minus the count stored: below 0 for use, and above it for a device that hands back more than it took.
pub fn difference(sent: u16, stored: u16) -> i32
    ensures { result ≡ pos sent -ℤ pos stored }
{
    i32::from(sent) - i32::from(stored)
}
