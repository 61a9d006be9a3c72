// The record under a request's handle, and whether the request takes a record of its place. Nothing here writes.
ghost use Rattle.std.specs.Prelude.{◌≡◌, Bool, Some, IfOk};
ghost use Rattle.profile.specs.Table.{slots_of};
ghost use Rattle.profile.specs.Agent.{find};
ghost use Rattle.slots.specs.declared.place.Place.{Place};
ghost use Rattle.tables.specs.LookUp.{found_at};
ghost use Rattle.decisions.specs.Decisions.{Takes, decided};

use codes::refusal::Refusal;
use profile::sizes::HANDLE_BYTES;
use slots::place::Place;
use tables::lookup::Record;

// PROFILE 4.2. Status 4 for a handle in no slot, and 6 for a record of a place that is not taken. No record is empty: only an
// empty slot has no handle (PROFILE 2.3).
pub fn slot_under<F: Fn(Place) -> bool>(
    table: &[u8],
    h: [u8; HANDLE_BYTES],
    takes: F,
) -> Result<Record, Refusal>
    requires { F.IsAlwaysCallable takes }
    ensures found { IfOk result (λ r. found_at (find h (slots_of table.now)) ≡ Some r) }
    ensures decided { (places : Place → Bool) → Takes (F.post takes) places → result ≡ decided places (found_at (find h (slots_of table.now))) }
{
    let record = tables::lookup::look_up(table, h).ok_or(Refusal::HandleNotFound)?;
    if takes(record.place) {
        Ok(record)
    } else {
        Err(Refusal::UnexpectedRequest)
    }
}
