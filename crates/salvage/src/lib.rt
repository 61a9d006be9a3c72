// The salvage of a damaged table (PROFILE 2.10): what is in order is kept, and all else is cleared.
#![tactic(auto)]

ghost use Rattle.std.specs.Prelude.{◌≡◌, ◌≤◌, IfOk};
ghost use Rattle.profile.specs.Sizes.{most_slots};
ghost use Rattle.profile.specs.Salvage.{salvage as salvage_of};
ghost use Rattle.salvage.specs.Salvages.{number_given, salvaged};

use codes::fault::Fault;
use profile::sizes::SLOT_BYTES;

mod finding; // finding.rt: what is found of one slot
mod slots_left; // slots_left.rt: the slots one after another, kept or cleared where they stand

// 102 where the table's length is none of a table's, then 107 where the report buffer has fewer bytes than the table has slots, with no
// byte of either changed. Otherwise the number of slots cleared, each of them reported. Nothing is required of table or report.
pub fn salvage(table: &mut [u8], report: &mut [u8]) -> Result<u16, Fault>
    ensures is { salvaged (number_given result) table.new report.new ≡ salvage_of table.old report.old }
    ensures few { IfOk result (λ n. n ≤ most_slots) }
{
    if !tables::part::whole_slots(table) {
        return Err(Fault::TableLength);
    }
    if report.len() < table.len() / SLOT_BYTES {
        return Err(Fault::ReportBufferShort);
    }
    Ok(slots_left::leave_slots(table, report))
}
