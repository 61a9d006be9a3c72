// The fields of a slot, written where they stand; all other bytes stay. A slot is lent as a slice: of an array made of a part that is
// lent, nothing is known of what the part ends as.
ghost use Rattle.std.specs.Prelude.{◌≡◌, [], ◌∷◌, ◌+◌, ◌*◌, ◌%◌, ◌≤◌, ◌<◌, length};
ghost use Rattle.profile.specs.Bytes.{byte, part, word_bytes};
ghost use Rattle.profile.specs.Sizes.{slot_size, most_payload, hash_room, handle_at, key_at, count_at, length_at, hashes_at, payload_at};
ghost use Rattle.profile.specs.Slot.{kept_bit};
ghost use Rattle.profile.specs.Table.{count_bytes};
ghost use Rattle.slots.specs.Places.{place_number};
ghost use Rattle.buffers.specs.Over.{over_at};

use profile::Count;
use profile::sizes::{HANDLE_BYTES, KEY_BYTES};
use profile::slot::{COUNT_AT, HANDLE_AT, HASHES_AT, KEY_AT, LENGTH_AT, PAYLOAD_AT};
use slots::place::Place;

// Byte 0 with another place: the two bits of the place by a shift, the others by a mask.
pub fn with_place(b: u8, place: Place) -> u8
    ensures { result ≡ 64 * place_number place + b % 64 }
{
    (place.number() << 6) | (b & 63)
}

// Another place; the other bits of byte 0 stay.
pub fn put_place(s: &mut [u8], place: Place)
    requires { length s.old ≡ slot_size }
    ensures { s.new ≡ over_at 0 ((64 * place_number place + byte 0 s.old % 64) ∷ []) s.old }
{
    s[0] = with_place(s[0], place);
}

// Byte 0 whole: place, hash count and the bit of the count.
pub fn put_head(s: &mut [u8], place: Place, hashes: u8, count: Count)
    requires { (hashes < 16) × (length s.old ≡ slot_size) }
    ensures { s.new ≡ over_at 0 ((64 * place_number place + 4 * hashes + 2 * kept_bit count) ∷ []) s.old }
{
    s[0] = bits::fields::slot_head(place.number(), hashes, counts::kept_bit(count));
}

// Byte 0 and the handle.
pub fn put_label(s: &mut [u8], place: Place, hashes: u8, count: Count, h: [u8; HANDLE_BYTES])
    requires { (hashes < 16) × (length s.old ≡ slot_size) }
    ensures { s.new ≡ over_at handle_at h (over_at 0 ((64 * place_number place + 4 * hashes + 2 * kept_bit count) ∷ []) s.old) }
{
    put_head(s, place, hashes, count);
    buffers::put_bytes(s, HANDLE_AT, &h);
}

// The number of a count; its bit is in byte 0.
pub fn put_count(s: &mut [u8], count: Count)
    requires { length s.old ≡ slot_size }
    ensures { s.new ≡ over_at count_at (count_bytes count) s.old }
{
    buffers::put_word(s, COUNT_AT, counts::number_of(count));
}

// Key, count and payload length.
pub fn put_terms(s: &mut [u8], key: [u8; KEY_BYTES], count: Count, n: u16)
    requires { length s.old ≡ slot_size }
    ensures { s.new ≡ over_at length_at (word_bytes n) (over_at count_at (count_bytes count) (over_at key_at key s.old)) }
{
    buffers::put_bytes(s, KEY_AT, &key);
    put_count(s, count);
    buffers::put_word(s, LENGTH_AT, n);
}

// Hash bytes and payload, which follow each other in a frame.
pub fn put_content(s: &mut [u8], src: &[u8], at: usize, m: usize, n: usize)
    requires { (m ≤ hash_room) × (n ≤ most_payload) × (at + m + n ≤ length src.now) × (length s.old ≡ slot_size) }
    ensures { s.new ≡ over_at payload_at (part (at + m) n src.now) (over_at hashes_at (part at m src.now) s.old) }
{
    buffers::put_bytes(s, HASHES_AT, &src[at..at + m]);
    buffers::put_bytes(s, PAYLOAD_AT, &src[at + m..at + m + n]);
}
