// Lending: what kinds 3 and 4 test before anything is written.
ghost use Rattle.std.specs.Prelude.{◌≡◌};
ghost use Rattle.profile.specs.Slot.{in_use};
ghost use Rattle.profile.specs.Table.{slots_of};
ghost use Rattle.profile.specs.Agent.{find};
ghost use Rattle.tables.specs.LookUp.{found_at};
ghost use Rattle.decisions.specs.Decisions.{decided, unless_used, lendable};

use codes::refusal::Refusal;
use profile::sizes::HANDLE_BYTES;
use slots::place::Place;
use tables::lookup::Record;

// PROFILE 5.3 and 5.4. After the tests on the record under the handle h, which must be enabled: status 5 where some slot has the
// new handle k, the record's own slot included. Inlined, so that the call's frame has one copy of the handles and not two.
#[inline(always)]
pub fn slot_to_lend(
    table: &[u8],
    h: [u8; HANDLE_BYTES],
    k: [u8; HANDLE_BYTES],
) -> Result<Record, Refusal>
    ensures { result ≡ unless_used (in_use k (slots_of table.now)) (decided lendable (found_at (find h (slots_of table.now)))) }
{
    let record = crate::decision::slot_under(table, h, |p| matches!(p, Place::Enabled))?;
    if tables::handle::in_use(table, k) {
        return Err(Refusal::DuplicateHandle);
    }
    Ok(record)
}
