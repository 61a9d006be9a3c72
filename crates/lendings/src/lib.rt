// Kinds 3 and 4, Rights Retrieval and REK Query: a right is lent. They differ in what the reply gives. Every check precedes every
// change.
#![tactic(auto)]

ghost use Rattle.std.specs.Prelude.{◌≡◌, ◌*◌, ◌≤◌, length};
ghost use Rattle.profile.specs.Bytes.{over};
ghost use Rattle.profile.specs.Sizes.{reply_room, most_hashes, most_payload};
ghost use Rattle.profile.specs.Table.{hash_count_of, length_of, right_of, slots_of};
ghost use Rattle.profile.specs.Frame.{frame};
ghost use Rattle.profile.specs.Agent.{find, when_found, lend_at, given_bit, write_given};
ghost use Rattle.codes.specs.Codes.{kind_code};
ghost use Rattle.decisions.specs.Serving.{Ready, Serves};
ghost use Rattle.lendings.specs.Lending.{kind_of, lent_by};

use codes::kind::Kind;
use profile::sizes::HANDLE_BYTES;
use profile::slot::LENGTH_AT;
use slots::Slot;
use slots::place::Place;
use tallies::update::Change;

// The two kinds that lend a right (PROFILE 5.3, 5.4).
#[derive(Clone, Copy)]
pub enum Lending {
    Retrieval,
    RekQuery,
}

impl Lending {
    pub fn kind(self) -> Kind
        ensures { kind_code result ≡ kind_of self }
    {
        match self {
            Lending::Retrieval => Kind::Retrieve,
            Lending::RekQuery => Kind::Rek,
        }
    }
}

// The reply at success, from the record's slot: kind 3 has the whole right and says whether it keeps a count, kind 4 has its key (PROFILE 3.2, 3.4).
#[inline(always)]
fn reply_lent(reply: &mut [u8], slot: &Slot, lending: Lending)
    requires { (reply_room ≤ length reply.old) × (hash_count_of slot.now ≤ most_hashes) × (length_of slot.now ≤ most_payload) }
    ensures { reply.new ≡ over (frame (kind_of lending) (128 * given_bit (lent_by (kind_of lending) (right_of slot.now))) (write_given (lent_by (kind_of lending) (right_of slot.now)))) reply.old }
{
    match lending {
        Lending::Retrieval => reply_writer::writer::reply_right(reply, slot),
        Lending::RekQuery => reply_writer::writer::reply_key(reply, slot),
    }
}

// PROFILE 5.3 and 5.4. The reply is written first, while the slot is as it was; then the record gets the new handle and is
// disabled, and nothing else of it changes.
#[inline(always)]
pub fn lend(
    table: &mut [u8],
    reply: &mut [u8],
    h: [u8; HANDLE_BYTES],
    k: [u8; HANDLE_BYTES],
    lending: Lending,
) -> Change
    requires { Ready table.old reply.old }
    ensures { Serves (kind_of lending) (when_found (find h (slots_of table.old)) (lend_at (slots_of table.old) k (lent_by (kind_of lending)))) table.old reply.old table.new reply.new result }
{
    match decisions::lending::slot_to_lend(table, h, k) {
        Ok(record) => {
            let slot = tables::part::slot_at(table, record.at);
            let length = words::word_at(slot, LENGTH_AT);
            reply_lent(reply, slot, lending);
            changes::relabel(table, record.at, k);
            Change::Moved(Place::Enabled, length, Place::Disabled, length)
        }
        Err(refusal) => {
            reply_writer::writer::reply_served(reply, lending.kind().number(), Err(refusal));
            Change::Same
        }
    }
}
