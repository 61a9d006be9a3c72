// Kinds 6 and 7, Rights Removal and Handle Removal: the slot of a record is cleared. They differ in the places that they take.
#![tactic(auto)]

ghost use Rattle.std.specs.Prelude.{Bool, ◌<◌};
ghost use Rattle.profile.specs.Table.{slots_of};
ghost use Rattle.profile.specs.Agent.{find, when_found};
ghost use Rattle.slots.specs.declared.place.Place.{Place};
ghost use Rattle.decisions.specs.Decisions.{Takes};
ghost use Rattle.decisions.specs.Serving.{Ready, Serves};
ghost use Rattle.removals.specs.Clearing.{clear_at};

use profile::sizes::HANDLE_BYTES;
use profile::slot::LENGTH_AT;
use slots::place::Place;
use tallies::update::Change;

// PROFILE 5.6 and 5.7. Status 4 where no record is under the handle, 6 where its place is none that the kind takes; otherwise
// every byte of its slot becomes 0, and the slot may be reserved again at once. The kind is a number, since `clear` answers for each of
// five bits.
pub fn clear<F: Fn(Place) -> bool>(
    table: &mut [u8],
    reply: &mut [u8],
    h: [u8; HANDLE_BYTES],
    kind: u8,
    takes: F,
) -> Change
    requires ready { Ready table.old reply.old }
    requires fits { kind < 32 }
    requires callable { F.IsAlwaysCallable takes }
    ensures { (places : Place → Bool) → Takes (F.post takes) places → Serves kind (when_found (find h (slots_of table.old)) (clear_at places (slots_of table.old))) table.old reply.old table.new reply.new result }
{
    match decisions::decision::slot_under(table, h, takes) {
        Ok(record) => {
            let length = words::word_at(tables::part::slot_at(table, record.at), LENGTH_AT);
            changes::clear_slot(table, record.at);
            reply_writer::writer::reply_served(reply, kind, Ok(()));
            Change::Moved(record.place, length, Place::Empty, 0)
        }
        Err(refusal) => {
            reply_writer::writer::reply_served(reply, kind, Err(refusal));
            Change::Same
        }
    }
}
