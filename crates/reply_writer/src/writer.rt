// Replies written at the start of a lent buffer (PROFILE 3.2 and 3.4). The bytes of the buffer after the reply keep what they held.
ghost use Rattle.std.specs.Prelude.{◌≡◌, [], ◌∷◌, ◌++◌, ◌+◌, ◌*◌, ◌≤◌, ◌<◌, length};
ghost use Rattle.profile.specs.Bytes.{part, over};
ghost use Rattle.profile.specs.Sizes.{reply_room, most_payload, key_size, most_hashes, key_at};
ghost use Rattle.profile.specs.Table.{hash_count_of, kept_of, length_of, count_bytes, right_of};
ghost use Rattle.profile.specs.Frame.{frame};
ghost use Rattle.profile.specs.Agent.{the_right, the_key, given_bit, write_given};
ghost use Rattle.codes.specs.Codes.{status_in};
ghost use Rattle.buffers.specs.Over.{over_at};
ghost use Rattle.reply_writer.specs.Written.{head_of, info_of};

use codes::kind::Kind;
use codes::refusal::{Refusal, status_of};
use profile::Count;
use profile::sizes::{HASH_BYTES, KEY_BYTES};
use profile::slot::{COUNT_AT, HASHES_AT, KEY_AT, LENGTH_AT, PAYLOAD_AT};
use slots::Slot;

// A key and a hash, as a body length counts them: by `as`, since a constant has no From.
const KEY_LENGTH: u16 = KEY_BYTES as u16;

const HASH_LENGTH: u16 = HASH_BYTES as u16;

// The head of a reply with a body of n bytes: version 1 and the kind as asked; the status, with the bit of a count above it where one is
// given; the body length (PROFILE 3.2).
fn put_head(reply: &mut [u8], kind: u8, second: u8, n: u16)
    requires { (kind < 32) × (4 ≤ length reply.old) }
    ensures { reply.new ≡ over_at 0 (head_of kind second n) reply.old }
{
    let head = buffers::frame_start(kind, second, n);
    buffers::put_bytes(reply, 0, &head);
}

// The key, which stands first in the bodies of kinds 3 and 4.
fn put_key(reply: &mut [u8], slot: &Slot)
    requires { 4 + key_size ≤ length reply.old }
    ensures { reply.new ≡ over_at 4 (part key_at key_size slot.now) reply.old }
{
    buffers::put_bytes(reply, 4, &slot[KEY_AT..COUNT_AT]);
}

// The kind is a number of five bits, since a request of an unknown kind is answered too; that it fits, and the room in the buffer, stand in clauses, each
// of which asks no more than its function writes.
// A reply with an empty body, of any status.
pub fn reply_status(reply: &mut [u8], kind: u8, status: u8)
    requires { (kind < 32) × (4 ≤ length reply.old) }
    ensures { reply.new ≡ over (frame kind status []) reply.old }
{
    put_head(reply, kind, status, 0);
}

// The reply of a request that is served or refused, where it has an empty body: at every refusal, and at success of kinds 1, 2 and 5 to 7.
pub fn reply_served(reply: &mut [u8], kind: u8, served: Result<(), Refusal>)
    requires { (kind < 32) × (4 ≤ length reply.old) }
    ensures { reply.new ≡ over (frame kind (status_in served) []) reply.old }
{
    reply_status(reply, kind, status_of(served));
}

// Kind 4 at success: the key, from the record's slot.
pub fn reply_key(reply: &mut [u8], slot: &Slot)
    requires { 4 + key_size ≤ length reply.old }
    ensures { reply.new ≡ over (frame 4 0 (write_given (the_key (right_of slot.now).key))) reply.old }
{
    put_head(reply, Kind::Rek.number(), status_of(Ok(())), KEY_LENGTH);
    put_key(reply, slot);
}

// The second byte of a success that gives the slot's count: the bit that says whether one is kept, above the status 0 (PROFILE 3.2).
fn success_of(slot: &Slot) -> u8
    ensures { result ≡ 128 * kept_of slot.now }
{
    let kept = bits::fields::slot_kept(slot[0]);
    bits::fields::flag_of_bit(kept)
}

// Kind 9 at success: count and payload, from the record's slot; the bit of the count stands in the head.
pub fn reply_info(reply: &mut [u8], slot: &Slot)
    requires { (6 + most_payload ≤ length reply.old) × (length_of slot.now ≤ most_payload) }
    ensures { reply.new ≡ over (frame 9 (128 * given_bit (info_of (right_of slot.now))) (write_given (info_of (right_of slot.now)))) reply.old }
{
    let second = success_of(slot);
    let count = counts::number_of(slots::head::count_of(slot));
    let length = words::word_at(slot, LENGTH_AT);
    put_head(reply, Kind::Info.number(), second, 2 + length);
    buffers::put_word(reply, 4, count);
    let size = usize::from(length);
    buffers::put_bytes(reply, 6, &slot[PAYLOAD_AT..PAYLOAD_AT + size]);
}

// What stands between a right's key and its hashes: the count, and the hash count in four bits above four zero bits.
fn right_head(count: Count, hashes: u8) -> [u8; 3]
    requires { hashes < 16 }
    ensures { result ≡ count_bytes count ++ ((16 * hashes) ∷ []) }
{
    let n = counts::number_of(count);
    let high = words::high_of(n);
    let low = words::low_of(n);
    let shifted = bits::fields::hash_count_byte(hashes);
    [high, low, shifted]
}

// Kind 3 at success: the record's key, count, hashes and payload, from its slot; the bit of the count stands in the head.
pub fn reply_right(reply: &mut [u8], slot: &Slot)
    requires { (reply_room ≤ length reply.old) × (hash_count_of slot.now ≤ most_hashes) × (length_of slot.now ≤ most_payload) }
    ensures { reply.new ≡ over (frame 3 (128 * given_bit (the_right (right_of slot.now))) (write_given (the_right (right_of slot.now)))) reply.old }
{
    let hashes = bits::fields::slot_hashes(slot[0]);
    let second = success_of(slot);
    let count = slots::head::count_of(slot);
    let length = words::word_at(slot, LENGTH_AT);
    let size = HASH_LENGTH * u16::from(hashes);
    put_head(reply, Kind::Retrieve.number(), second, 19 + size + length);
    put_key(reply, slot);
    let head = right_head(count, hashes);
    buffers::put_bytes(reply, 20, &head);
    let n = usize::from(size);
    let m = usize::from(length);
    buffers::put_bytes(reply, 23, &slot[HASHES_AT..HASHES_AT + n]);
    buffers::put_bytes(reply, 23 + n, &slot[PAYLOAD_AT..PAYLOAD_AT + m]);
}
