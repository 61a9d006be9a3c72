// Whether a call is let in: the tests that come before its frame (PROFILE 4.1). Nothing is changed.
#![tactic(auto)]

ghost use Rattle.std.specs.Prelude.{◌≡◌};
ghost use Rattle.codes.specs.Codes.{number_in};
ghost use Rattle.admission.specs.Tests.{tests_of};

use codes::fault::Fault;
use profile::Tally;
use profile::sizes::{REPLY_ROOM, SLOT_BYTES};

// 101, 102, 105, 103 and 106, tested in this order (PROFILE 4.1).
#[inline(never)]
pub fn tested(table: &[u8], tally: Tally, start: usize, reply: &[u8]) -> Result<(), Fault>
    ensures { number_in result ≡ tests_of table.now tally start reply.now }
{
    if reply.len() < REPLY_ROOM {
        return Err(Fault::ReplyBufferShort);
    }
    if !tables::part::whole_slots(table) {
        return Err(Fault::TableLength);
    }
    if table.len() / SLOT_BYTES <= start {
        return Err(Fault::StartOutside);
    }
    if !tables::table::well_table(table) {
        return Err(Fault::TableNotWellFormed);
    }
    if !tallies::count::same(tally, tallies::count::tally_of(table)) {
        return Err(Fault::TallyDiffers);
    }
    Ok(())
}
