// The reply reader's tests (PROFILE 6.3): whether a frame is a reply, and whether its body is of its kind's shape.
ghost use Rattle.std.specs.Prelude.{◌≡◌, ◌&&◌, ◌||◌, ◌+◌, ◌≤◌, eqb, length};
ghost use Rattle.profile.specs.Bytes.{word};
ghost use Rattle.profile.specs.Slot.{count_holds};
ghost use Rattle.profile.specs.Frame.{kind_of, is_frame, version_holds, kept_in, body, retrieve_kind, rek_kind, list_kind, info_kind};
ghost use Rattle.profile.specs.Device.{none?, gives_count, shaped};
ghost use Rattle.reply_reader.specs.Told.{count_from};

use codes::kind::Kind;
use codes::refusal::SUCCESS;
use profile::Count;
use profile::sizes::{HANDLE_BYTES, HASH_BYTES, KEY_BYTES, MOST_HASHES, MOST_PAYLOAD, MOST_SLOTS};

// The length of a reply with a key, the most bytes of handles in a list, and the longest reply of kind 9.
const KEY_REPLY: usize = 4 + KEY_BYTES;

const MOST_LISTED: usize = HANDLE_BYTES * MOST_SLOTS;

const MOST_INFO: usize = 6 + MOST_PAYLOAD;

// Four bytes or more, as many as its body length says, and version 1.
pub(crate) fn is_reply(f: &[u8]) -> bool
    ensures { result ≡ (is_frame f.now && version_holds f.now) }
{
    if f.len() < 4 {
        return false;
    }
    let n = usize::from(words::word_at(f, 2));
    (f.len() == 4 + n) & (bits::fields::frame_version(f[0]) == 1)
}

// Kinds 3 and 9 give a count (PROFILE 3.2).
fn gives_count(kind: u8) -> bool
    ensures { result ≡ gives_count (kind_of kind) }
{
    matches!(Kind::try_from(kind), Ok(Kind::Retrieve | Kind::Info))
}

// The bit of a count is 0, but for a success that gives one (PROFILE 6.3).
pub(crate) fn bit_allowed(kind: u8, bit: u8, status: u8) -> bool
    ensures { result ≡ (eqb bit 0 || (eqb status 0 && gives_count (kind_of kind))) }
{
    let gives = gives_count(kind);
    (bit == 0) | ((status == SUCCESS) & gives)
}

// Whether the body is empty.
pub(crate) fn no_body(f: &[u8]) -> bool
    ensures { result ≡ none? (body f.now) }
{
    4 >= f.len()
}

// The bit and the number are apart in a frame, the number at an offset of its kind.
// Whether the bit in the second byte and the number at an offset say a count: without the bit, the number must be 0.
fn says_count(f: &[u8], at: usize) -> bool
    requires { (2 ≤ length f.now) × (at + 2 ≤ length f.now) }
    ensures { result ≡ count_holds (kept_in f.now) (word at f.now) }
{
    let bit = bits::fields::flag_of(f[1]);
    counts::count_holds(bit, words::word_at(f, at))
}

// The count that they say.
pub(crate) fn count_at(f: &[u8], at: usize) -> Count
    requires { (2 ≤ length f.now) × (at + 2 ≤ length f.now) }
    ensures { result ≡ count_from at f.now }
{
    let bit = bits::fields::flag_of(f[1]);
    let n = words::word_at(f, at);
    counts::count_with(bit, n)
}

// Kind 3: a count, the four bits after the hash count zero, at most 8 hashes, and a payload of 1 to 4,096 bytes.
pub(crate) fn is_right(f: &[u8]) -> bool
    ensures { result ≡ shaped retrieve_kind f.now }
{
    if f.len() < 24 {
        return false;
    }
    let hashes = usize::from(bits::fields::hash_count_of(f[22]));
    let rest = bits::fields::hash_count_rest(f[22]);
    let at = 23 + HASH_BYTES * hashes;
    let sized = (at < f.len()) & (f.len() <= at + MOST_PAYLOAD);
    let counted = says_count(f, 20);
    (hashes <= MOST_HASHES) & (rest == 0) & sized & counted
}

// Kind 4: a key.
pub(crate) fn is_key(f: &[u8]) -> bool
    ensures { result ≡ shaped rek_kind f.now }
{
    f.len() == KEY_REPLY
}

// Kind 8: the seven bits after "more" are zero, and 0 to 15 whole handles follow.
pub(crate) fn is_list(f: &[u8]) -> bool
    ensures { result ≡ shaped list_kind f.now }
{
    if f.len() < 5 {
        return false;
    }
    let rest = bits::fields::flag_rest(f[4]);
    let size = f.len() - 5;
    (rest == 0) & (size % HANDLE_BYTES == 0) & (size <= MOST_LISTED)
}

// Kind 9: a count, and a payload of 1 to 4,096 bytes.
pub(crate) fn is_info(f: &[u8]) -> bool
    ensures { result ≡ shaped info_kind f.now }
{
    if f.len() < 6 {
        return false;
    }
    let counted = says_count(f, 4);
    (6 < f.len()) & (f.len() <= MOST_INFO) & counted
}
