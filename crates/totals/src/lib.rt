// Returns and what they did to counts: the change of a call (PROFILE 4.4), and the call that keeps a running total (PROFILE 4.5).
#![tactic(auto)]

use codes::fault::Fault;
use profile::Tally;

pub mod change; // change.rt: what a return did to a count
pub mod total; // total.rt: a total, its bounds, and one change added

ghost use Rattle.std.specs.Prelude.{◌≡◌, true};
ghost use Rattle.codes.specs.Codes.{number_in, left_by};
ghost use Rattle.profile.specs.Total.{totals_with, totals_hold, totalling};
ghost use Rattle.serving.specs.Call.{outcome, call_of};
ghost use Rattle.totals.specs.Returns.{totalled};

// The call where 108 is not given: what its return did to the count is added. The counts come with what the call did to the slots, so that
// nothing is looked up for them. A call that is refused changes the total by nothing. Total, returns and change are the three pointers that C lends, and
// that the totals hold is asked of what comes in alone: after the 30,000th return they hold no longer.
pub fn counted_call(
    table: &mut [u8],
    tally: Tally,
    start: usize,
    frame: &[u8],
    reply: &mut [u8],
    total: &mut i32,
    returns: &mut u16,
    change: &mut i32,
) -> Result<Tally, Fault>
    requires { totals_hold (totals_with total.old returns.old) ≡ true }
    ensures { totalled (outcome (number_in result) reply.new table.new (left_by tally result)) total.new returns.new change.new ≡ totalling table.old (call_of tally start frame.now reply.old) (totals_with total.old returns.old) change.old }
{
    *change = 0;
    let called = agent::call(table, tally, start, frame, reply)?;
    let sum = crate::total::with_return(*total, *returns, called.change);
    *total = sum.total;
    *returns = sum.returns;
    *change = sum.change;
    Ok(called.tally)
}

// PROFILE 4.5. 108 before all other numbers, with nothing changed; otherwise the call, and what its return did to the count.
pub fn call_totalling(
    table: &mut [u8],
    tally: Tally,
    start: usize,
    frame: &[u8],
    reply: &mut [u8],
    total: &mut i32,
    returns: &mut u16,
    change: &mut i32,
) -> Result<Tally, Fault>
    ensures { totalled (outcome (number_in result) reply.new table.new (left_by tally result)) total.new returns.new change.new ≡ totalling table.old (call_of tally start frame.now reply.old) (totals_with total.old returns.old) change.old }
{
    if !crate::total::holds(*total, *returns) {
        return Err(Fault::TotalOutside);
    }
    counted_call(table, tally, start, frame, reply, total, returns, change)
}
