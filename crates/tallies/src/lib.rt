// The tally of a table (PROFILE 2.8): brought up to date from the one slot that changed, and worked out from the heads of all slots.
#![tactic(auto)]

mod share; // share.rt: what a slot counts for
pub mod count; // count.rt: a tally worked out from a table, and compared
pub mod update; // update.rt: a tally brought up to date, by value

ghost use Rattle.std.specs.Prelude.{◌≡◌};
ghost use Rattle.profile.specs.Tally.{Tally, tallied, work_out};
ghost use Rattle.codes.specs.Codes.{number_in, left_by};

use codes::fault::Fault;
use profile::Tally;

// The tally of a table, worked out afresh, whatever the five numbers were; where it refuses, they stay as they were (PROFILE 2.8).
#[tactic(auto, unfolding(profile::specs::Tally::work_out))]
pub fn work_out(table: &[u8]) -> Result<Tally, Fault>
    ensures { (was : Tally) → tallied (number_in result) (left_by was result) ≡ work_out table.now was }
{
    if !tables::part::whole_slots(table) {
        return Err(Fault::TableLength);
    }
    if !tables::table::well_table(table) {
        return Err(Fault::TableNotWellFormed);
    }
    Ok(count::tally_of(table))
}
