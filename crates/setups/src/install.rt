// Kind 2, Rights Installation.
ghost use Rattle.std.specs.Prelude.{◌≡◌};
ghost use Rattle.profile.specs.Table.{slots_of};
ghost use Rattle.profile.specs.Request.{install as installation};
ghost use Rattle.profile.specs.Agent.{find};
ghost use Rattle.codes.specs.declared.refusal.Refusal.TheVariants.{NotEnoughSpace};
ghost use Rattle.tables.specs.LookUp.{found_at};
ghost use Rattle.changes.specs.Change.{right_from};
ghost use Rattle.decisions.specs.Decisions.{awaited, decided, unless};
ghost use Rattle.decisions.specs.Serving.{Ready, Serves, answer_to};
ghost use Rattle.setups.specs.Sending.{Sent, longer_than_room};

use codes::kind::Kind;
use codes::refusal::Refusal;
use profile::Count;
use profile::sizes::{HANDLE_BYTES, KEY_BYTES};
use profile::slot::LENGTH_AT;
use slots::place::Place;
use tables::lookup::Record;
use tallies::update::Change;

// PROFILE 5.2. Status 4 where no record is under the handle, 6 where it is not reserved, 7 for a payload longer than the room
// reserved.
fn slot_to_fill(table: &[u8], h: [u8; HANDLE_BYTES], size: usize) -> Result<Record, Refusal>
    ensures { result ≡ unless (longer_than_room table.now size) NotEnoughSpace (decided awaited (found_at (find h (slots_of table.now)))) }
{
    let record = decisions::decision::slot_under(table, h, |p| matches!(p, Place::Reserved))?;
    let room = words::word_at(tables::part::slot_at(table, record.at), LENGTH_AT);
    if usize::from(room) < size {
        return Err(Refusal::NotEnoughSpace);
    }
    Ok(record)
}

// PROFILE 5.2. Where no test refuses it, the record becomes enabled with the right that the request has. `as` is proved to lose nothing; a
// TryFrom would bring an Err that cannot come.
pub fn install(
    table: &mut [u8],
    reply: &mut [u8],
    h: [u8; HANDLE_BYTES],
    key: [u8; KEY_BYTES],
    count: Count,
    hashes: usize,
    frame: &[u8],
    at: usize,
    size: usize,
) -> Change
    requires { Ready table.old reply.old × Sent frame.now at hashes size }
    ensures { Serves 2 (answer_to table.old (installation h (right_from key count hashes size frame.now at))) table.old reply.old table.new reply.new result }
{
    match slot_to_fill(table, h, size) {
        Ok(record) => {
            let room = words::word_at(tables::part::slot_at(table, record.at), LENGTH_AT);
            changes::store_right(table, record.at, h, key, count, hashes, frame, at, size);
            reply_writer::writer::reply_served(reply, Kind::Install.number(), Ok(()));
            Change::Moved(Place::Reserved, room, Place::Enabled, size as u16)
        }
        Err(refusal) => {
            reply_writer::writer::reply_served(reply, Kind::Install.number(), Err(refusal));
            Change::Same
        }
    }
}
