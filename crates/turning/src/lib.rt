// Tables from before counts had their bit, turned once (PROFILE 2.7): each count that is not 0 gets its bit.
#![tactic(auto)]

ghost use Rattle.std.specs.Prelude.{◌≡◌};
ghost use Rattle.codes.specs.Codes.{number_in};
ghost use Rattle.profile.specs.Turning.{turn as turn_of};
ghost use Rattle.turning.specs.Turns.{turned};

use codes::fault::Fault;
use slots::well::Rules;

mod marks; // marks.rt: the slots of a table, turned where they stand

// 102 where the table's length is none of a table's, then 103 by the rules before, with no byte changed. Otherwise byte 0 of each slot with
// a count has the bit, and no other byte is changed. Nothing is required of the table.
pub fn turn(table: &mut [u8]) -> Result<(), Fault>
    ensures { turned (number_in result) table.new ≡ turn_of table.old }
{
    if !tables::part::whole_slots(table) {
        return Err(Fault::TableLength);
    }
    if !tables::table::well_by(table, Rules::Before) {
        return Err(Fault::TableNotWellFormed);
    }
    marks::mark_slots(table);
    Ok(())
}
