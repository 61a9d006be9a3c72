// The two kinds that only read the table: 8, the Handle List Query, and 9, the Rights Information Query.
#![tactic(auto)]

ghost use Rattle.std.specs.Prelude.{◌≡◌, ◌+◌, ◌*◌, ◌≤◌, length, drop};
ghost use Rattle.profile.specs.Bytes.{pieces};
ghost use Rattle.profile.specs.Sizes.{hash_size, most_hashes};
ghost use Rattle.profile.specs.Request.{list, info};
ghost use Rattle.decisions.specs.Serving.{Ready};
ghost use Rattle.queries.specs.Query.{reply_to};

use codes::kind::Kind;
use profile::sizes::HANDLE_BYTES;
use slots::place::Place;

mod handles; // handles.rt: the handles of kind 8, slot by slot

// PROFILE 5.8. The handles are put into the reply first; then what stands in front of them, which says whether one was left off.
pub fn handle_list(
    table: &[u8],
    reply: &mut [u8],
    limit: u16,
    hashes: usize,
    frame: &[u8],
    at: usize,
)
    requires { Ready table.now reply.old × (hashes ≤ most_hashes) × (at + hash_size * hashes ≤ length frame.now) }
    ensures { reply.new ≡ reply_to 8 (list limit (pieces hash_size hashes (drop at frame.now))) table.now reply.old }
{
    let query = octets::arrays::hashes_at(frame, at, hashes);
    let most = handles::most_handles(limit);
    let found = handles::put_handles(table, reply, &query[..hashes], most);
    if found <= most {
        list_replies::close_list(reply, found, false);
    } else {
        list_replies::close_list(reply, most, true);
    }
}

// PROFILE 5.9. Status 4 where no record is under the handle, 6 where it is not enabled; otherwise count and payload.
pub fn info(table: &[u8], reply: &mut [u8], h: [u8; HANDLE_BYTES])
    requires { Ready table.now reply.old }
    ensures { reply.new ≡ reply_to 9 (info h) table.now reply.old }
{
    match decisions::decision::slot_under(table, h, |p| matches!(p, Place::Enabled)) {
        Ok(record) => reply_writer::writer::reply_info(
            reply,
            tables::part::slot_at(table, record.at),
        ),
        Err(refusal) => {
            reply_writer::writer::reply_served(reply, Kind::Info.number(), Err(refusal))
        }
    }
}
