// Kind 8: the handles of the list go straight from their slots into the reply.
ghost use Rattle.std.specs.Prelude.{◌≡◌, ◌+◌, ◌*◌, ◌≤◌, ltb, length, take, if◌then◌else◌};
ghost use Rattle.profile.specs.Sizes.{handle_size};
ghost use Rattle.profile.specs.Table.{handle_of, slots_of};
ghost use Rattle.profile.specs.Agent.{listed};
ghost use Rattle.buffers.specs.Over.{over_at};
ghost use Rattle.list_replies.specs.Listed.{holding};
ghost use Rattle.decisions.specs.Serving.{Ready};
ghost use Rattle.queries.specs.Query.{most_of};

use profile::sizes::{HANDLE_BYTES, HASH_BYTES, MOST_SLOTS};
use slots::Slot;

// How many handles a reply may have (PROFILE 5.8). A limit of 0 is none, and then a handle for each slot is enough; any other
// limit counts the bytes of handles, which go in whole.
pub(crate) fn most_handles(limit: u16) -> usize
    ensures { result ≡ most_of limit }
{
    if limit == 0 {
        return MOST_SLOTS;
    }
    usize::from(limit) / HANDLE_BYTES
}

// A slot's handle goes after k others, or is left off where they are as many as fit.
fn put_next(reply: &mut [u8], slot: &Slot, k: usize, most: usize)
    requires { 15 + handle_size * k ≤ length reply.old }
    ensures { reply.new ≡ (if ltb k most then over_at (5 + handle_size * k) (handle_of slot.now) reply.old else reply.old) }
{
    if k < most {
        list_replies::put_handle(reply, k, slot);
    }
}

// How many handles the list has, in the order of the slots and each once; the first of them, as many as fit, are put.
pub(crate) fn put_handles(
    table: &[u8],
    reply: &mut [u8],
    query: &[[u8; HASH_BYTES]],
    most: usize,
) -> usize
    requires { Ready table.now reply.old }
    ensures { (result ≡ length (listed query.now (slots_of table.now))) × (reply.new ≡ holding (take most (listed query.now (slots_of table.now))) reply.old) }
{
    let mut found = 0;
    for slot in tables::part::slots_in(table) {
        if hashes::is_listed(slot, query) {
            put_next(reply, slot, found, most);
            found += 1;
        }
    }
    found
}
