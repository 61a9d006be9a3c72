// The card agent: one call, with a lent table of slots and its tally, a start, a request frame and a lent reply buffer (PROFILE 1.1).
#![tactic(auto)]

ghost use Rattle.std.specs.Prelude.{◌≡◌};
ghost use Rattle.codes.specs.Codes.{number_in, left_by};
ghost use Rattle.profile.specs.Table.{slots_of};
ghost use Rattle.profile.specs.Agent.{agent};
ghost use Rattle.tallies.specs.declared.update.Change.TheVariants.{Same};
ghost use Rattle.tallies.specs.Changes.{change_in};
ghost use Rattle.serving.specs.Call.{outcome, call_of};
ghost use Rattle.agent.specs.Called.{called};

use codes::fault::Fault;
use profile::Tally;
use tallies::update::Change;

// What a call gives by value: the tally afterwards, and what it did to the slots.
#[derive(Clone, Copy)]
pub struct Called {
    pub tally: Tally,
    pub change: Change,
}

// PROFILE 4.1. 101, 102, 105, 103, 106 and 104, tested in this order and with nothing changed; otherwise the reply, the new table, its tally
// and what was done to the slots. Nothing is required of what is lent, nor of tally and start. The tally comes and goes by value, so that
// whoever makes a call within Rattle needs no reference to it.
#[inline(always)]
pub fn call(
    table: &mut [u8],
    tally: Tally,
    start: usize,
    frame: &[u8],
    reply: &mut [u8],
) -> Result<Called, Fault>
    ensures calls { outcome (number_in result) reply.new table.new (left_by (called tally Same) result).tally ≡ agent table.old (call_of tally start frame.now reply.old) }
    ensures tells { (left_by (called tally Same) result).change ≡ change_in (slots_of table.old) (slots_of table.new) }
{
    admission::tested(table, tally, start, reply)?;
    let change = serving::answer(table, start, frame, reply)?;
    let after = tallies::update::updated(tally, change);
    Ok(Called {
        tally: after,
        change,
    })
}
