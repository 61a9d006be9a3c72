// One slot's bytes, changed where they stand from one record's to another's.
ghost use Rattle.std.specs.Prelude.{◌≡◌, ◌+◌, ◌*◌, ◌≤◌, length};
ghost use Rattle.profile.specs.Sizes.{hash_size, most_hashes, most_payload};
ghost use Rattle.profile.specs.Slot.{recount, reserved, enabled, disabled, taken};
ghost use Rattle.profile.specs.Table.{handle_of, right_of, pack};
ghost use Rattle.changes.specs.Change.{Placed, right_from};

use crate::fields::{put_content, put_count, put_head, put_label, put_place, put_terms};
use profile::Count;
use profile::sizes::{HANDLE_BYTES, HASH_BYTES, KEY_BYTES};
use profile::slot::{HANDLE_AT, LENGTH_AT};
use slots::place::Place;

// All bytes of an empty slot are zero, so place, handle and length are all there is to write.
pub fn reserve(s: &mut [u8], h: [u8; HANDLE_BYTES], n: u16)
    requires { Placed 0 s.old }
    ensures { s.new ≡ pack (taken h (reserved n)) }
{
    put_label(s, Place::Reserved, 0, None, h);
    buffers::put_word(s, LENGTH_AT, n);
}

// The bytes of a reservation after its length are zero, so those after the hashes and after the payload need no writing.
// `as` is proved to lose nothing; a TryFrom would bring an Err that cannot come.
pub fn install(
    s: &mut [u8],
    h: [u8; HANDLE_BYTES],
    key: [u8; KEY_BYTES],
    count: Count,
    hashes: usize,
    src: &[u8],
    at: usize,
    n: usize,
)
    requires { Placed 1 s.old × (hashes ≤ most_hashes) × (n ≤ most_payload) × (at + hash_size * hashes + n ≤ length src.now) }
    ensures { s.new ≡ pack (taken h (enabled (right_from key count hashes n src.now at))) }
{
    put_label(s, Place::Enabled, hashes as u8, count, h);
    put_terms(s, key, count, n as u16);
    put_content(s, src, at, HASH_BYTES * hashes, n);
}

// The place's two bits and the handle: the right itself stays.
pub fn lend(s: &mut [u8], k: [u8; HANDLE_BYTES])
    requires { Placed 2 s.old }
    ensures { s.new ≡ pack (taken k (disabled (right_of s.old))) }
{
    put_place(s, Place::Disabled);
    buffers::put_bytes(s, HANDLE_AT, &k);
}

// The place, and the count with its bit: hash count, handle, key, hashes and payload stay.
pub fn enable(s: &mut [u8], count: Count)
    requires { Placed 3 s.old }
    ensures { s.new ≡ pack (taken (handle_of s.old) (enabled (recount count (right_of s.old)))) }
{
    let hashes = bits::fields::slot_hashes(s[0]);
    put_head(s, Place::Enabled, hashes, count);
    put_count(s, count);
}
