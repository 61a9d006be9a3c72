// A reply read (PROFILE 6.3). It is refused with 203 unless its length, version and zero bits are right, the bit of a count is set only
// where one is given, its status is one of the profile's, and its body is of its kind's shape at success and empty at every other status.
ghost use Rattle.std.specs.Prelude.{◌≡◌, true, false, MatchResult};
ghost use Rattle.codes.specs.declared.fault.Fault.TheVariants.{NoReply};
ghost use Rattle.profile.specs.Frame.{kind_of, retrieve_kind, rek_kind, list_kind, info_kind};
ghost use Rattle.reply_reader.specs.Told.{keyless, told_empty, told_of, told_success, told_failed, refusal_of, told, Reads};

use crate::answer::{Answer, Told};
use crate::shape;
use codes::fault::Fault;
use codes::kind::Kind;
use codes::refusal::{Refusal, SUCCESS};
use profile::sizes::{HANDLE_BYTES, HASH_BYTES, KEY_BYTES};

// An answer without a key.
#[tactic(auto, unfolding(crate::specs::Told::keyless))]
fn without_key(answer: Answer) -> Told
    ensures { result ≡ keyless answer }
{
    let key = [0u8; KEY_BYTES];
    Told { answer, key }
}

// 203 where a test has failed.
fn ensure(passed: bool) -> Result<(), Fault>
    ensures { MatchResult result (λ _. passed ≡ true) (λ e. (e ≡ NoReply) × (passed ≡ false)) }
{
    if passed { Ok(()) } else { Err(Fault::NoReply) }
}

// A reply whose body must be empty: of every status but 0, and at success of kinds 1, 2 and 5 to 7.
fn read_empty(f: &[u8], answer: Answer) -> Result<Told, Fault>
    ensures { result ≡ told_empty answer f.now }
{
    ensure(shape::no_body(f))?;
    Ok(without_key(answer))
}

// Kind 3: a key, a count, the hash count above four zero bits, the hashes and the payload (PROFILE 3.4).
#[tactic(auto, using(crate::proofs::Shapes::right_room), unfolding(crate::specs::Told::right_in))]
fn read_right(f: &[u8]) -> Result<Told, Fault>
    ensures { result ≡ told_of retrieve_kind f.now }
{
    ensure(shape::is_right(f))?;
    let key = octets::arrays::array_at(f, 4);
    let hashes = usize::from(bits::fields::hash_count_of(f[22]));
    let at = 23 + HASH_BYTES * hashes;
    let answer = Answer::Right {
        count: shape::count_at(f, 20),
        hashes,
        hashes_at: 23,
        payload_at: at,
        payload_length: f.len() - at,
    };
    Ok(Told { answer, key })
}

// Kind 4: the key.
#[tactic(auto, using(crate::proofs::Shapes::key_room), unfolding(crate::specs::Told::key_in))]
fn read_key(f: &[u8]) -> Result<Told, Fault>
    ensures { result ≡ told_of rek_kind f.now }
{
    ensure(shape::is_key(f))?;
    let key = octets::arrays::array_at(f, 4);
    Ok(Told {
        answer: Answer::Key,
        key,
    })
}

// Kind 8: the bit "more" above seven zero bits, and the handles.
#[tactic(auto, using(crate::proofs::Shapes::list_room), unfolding(crate::specs::Told::list_in))]
fn read_list(f: &[u8]) -> Result<Told, Fault>
    ensures { result ≡ told_of list_kind f.now }
{
    ensure(shape::is_list(f))?;
    let more = bits::fields::flag_of(f[4]) == 1;
    Ok(without_key(Answer::Handles {
        more,
        handles: (f.len() - 5) / HANDLE_BYTES,
        handles_at: 5,
    }))
}

// Kind 9: a count and the payload.
#[tactic(auto, using(crate::proofs::Shapes::info_room), unfolding(crate::specs::Told::info_in))]
fn read_info(f: &[u8]) -> Result<Told, Fault>
    ensures { result ≡ told_of info_kind f.now }
{
    ensure(shape::is_info(f))?;
    Ok(without_key(Answer::Counted {
        count: shape::count_at(f, 4),
        payload_at: 6,
        payload_length: f.len() - 6,
    }))
}

// Only the kinds 1 to 9 can succeed.
fn read_success(f: &[u8], kind: u8) -> Result<Told, Fault>
    ensures { result ≡ told_success (kind_of kind) f.now }
{
    let Ok(kind) = Kind::try_from(kind) else {
        return Err(Fault::NoReply);
    };
    match kind {
        Kind::Setup | Kind::Install | Kind::Enable | Kind::Remove | Kind::Cancel => {
            read_empty(f, Answer::Nothing { kind })
        }
        Kind::Retrieve => read_right(f),
        Kind::Rek => read_key(f),
        Kind::List => read_list(f),
        Kind::Info => read_info(f),
    }
}

// A reply of a status other than 0: the request was refused.
fn read_failed(f: &[u8], kind: u8, status: u8) -> Result<Told, Fault>
    ensures { result ≡ told_failed kind (refusal_of status) f.now }
{
    let Ok(refusal) = Refusal::try_from(status) else {
        return Err(Fault::NoReply);
    };
    read_empty(f, Answer::Failed { kind, refusal })
}

// The tests for all kinds, in their order. The second byte is the bit of a count above the status (PROFILE 3.2). The kind stays a
// number here, since a request of an unknown kind is answered too.
#[tactic(auto, unfolding(crate::specs::Told::told))]
fn tell(f: &[u8]) -> Result<Told, Fault>
    ensures { result ≡ told f.now }
{
    ensure(shape::is_reply(f))?;
    let kind = bits::fields::frame_kind(f[0]);
    let bit = bits::fields::flag_of(f[1]);
    let status = bits::fields::flag_rest(f[1]);
    ensure(shape::bit_allowed(kind, bit, status))?;
    if status == SUCCESS {
        return read_success(f, kind);
    }
    read_failed(f, kind, status)
}

// What a frame tells, exactly, and that it means what the profile says of the frame. Any bytes may be read.
#[tactic(auto, using(crate::proofs::Meanings::reads))]
pub fn read_reply(f: &[u8]) -> Result<Told, Fault>
    ensures { Reads f.now result }
{
    tell(f)
}
