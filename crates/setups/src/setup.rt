// Kind 1, Installation Setup.
ghost use Rattle.profile.specs.Request.{setup as asking};
ghost use Rattle.std.specs.Prelude.{◌<◌};
ghost use Rattle.profile.specs.Table.{slot_count, slots_of};
ghost use Rattle.profile.specs.Agent.{first_empty_from};
ghost use Rattle.decisions.specs.Serving.{Ready, Serves, answer_at};
ghost use Rattle.setups.specs.Reserving.{SetsUp};

use codes::kind::Kind;
use codes::refusal::Refusal;
use profile::sizes::{HANDLE_BYTES, MOST_PAYLOAD};
use slots::place::Place;
use tallies::update::Change;

// The longest payload, as a length is sent: by `as`, since a constant has no From.
const MOST_LENGTH: u16 = MOST_PAYLOAD as u16;

// PROFILE 5.1. Status 2 for a length of 0, 5 where some slot has the handle, 7 for a length that no slot holds or where no slot
// is empty; otherwise the first empty slot from the start.
fn slot_to_reserve(
    table: &[u8],
    start: usize,
    h: [u8; HANDLE_BYTES],
    n: u16,
) -> Result<usize, Refusal>
    requires { start < slot_count table.now }
    ensures { SetsUp start table.now h n result }
{
    if n == 0 {
        return Err(Refusal::ParameterFailed);
    }
    if tables::handle::in_use(table, h) {
        return Err(Refusal::DuplicateHandle);
    }
    if MOST_LENGTH < n {
        return Err(Refusal::NotEnoughSpace);
    }
    room::first_empty_from(table, start).ok_or(Refusal::NotEnoughSpace)
}

// PROFILE 5.1. Where no test refuses it, the first empty slot from the start becomes reserved.
pub fn set_up(
    table: &mut [u8],
    start: usize,
    reply: &mut [u8],
    h: [u8; HANDLE_BYTES],
    n: u16,
) -> Change
    requires { Ready table.old reply.old × (start < slot_count table.old) }
    ensures { Serves 1 (answer_at (first_empty_from start (slots_of table.old)) table.old (asking h n)) table.old reply.old table.new reply.new result }
{
    match slot_to_reserve(table, start, h, n) {
        Ok(i) => {
            changes::store_reservation(table, i, h, n);
            reply_writer::writer::reply_served(reply, Kind::Setup.number(), Ok(()));
            Change::Moved(Place::Empty, 0, Place::Reserved, n)
        }
        Err(refusal) => {
            reply_writer::writer::reply_served(reply, Kind::Setup.number(), Err(refusal));
            Change::Same
        }
    }
}
