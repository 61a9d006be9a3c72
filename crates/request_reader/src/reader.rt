// The request reader (PROFILE 6.1): first 104, then the tests for all kinds (PROFILE 4.3), then the field tests of kinds 2, 5 and 8.
ghost use Rattle.std.specs.Prelude.{◌≡◌, ◌&&◌, ◌-◌, ◌*◌, ◌≤◌, length, eqb, leb, Ok, None};
ghost use Rattle.profile.specs.Sizes.{handle_size, most_hashes};
ghost use Rattle.codes.specs.Codes.{kind_meant, kind_told};
ghost use Rattle.profile.specs.Bytes.{word};
ghost use Rattle.std.proofs.Math.Option.{some};
ghost use Rattle.profile.specs.Request.{kept_asked};
ghost use Rattle.request_reader.specs.Asking.{zero_below, tested, one_handle, two_handles, of_right, of_install, of_enable, of_list, of_kind, asked, HeadTells};
ghost use Rattle.request_reader.specs.Answer.{Answers};
ghost use Rattle.request_reader.specs.declared.asked.Body.TheVariants as body;

use crate::asked::{Asked, Body, Why};
use codes::kind::{Kind, UnknownKind};
use profile::sizes::{HANDLE_BYTES, HASH_BYTES, MOST_HASHES, MOST_PAYLOAD};

// The body length of kinds 3 and 4.
const TWO_HANDLES: usize = 2 * HANDLE_BYTES;

// The bit of the second byte that says whether a count is kept, for kinds 2 and 5 (PROFILE 3.1).
fn kept_in(f: &[u8]) -> u8
    requires { 4 ≤ length f.now }
    ensures { result ≡ kept_asked f.now }
{
    bits::fields::request_kept(f[1])
}

// Whether the zero bits of the second byte are 0: six for kinds 2 and 5, and seven for every other kind, known or not (PROFILE 3.1).
fn zero_bits(kind: Result<Kind, UnknownKind>, second: u8) -> bool
    ensures { result ≡ zero_below (kind_told kind) second }
{
    let six = bits::fields::request_rest(second) == 0;
    let seven = bits::fields::flag_rest(second) == 0;
    match kind {
        Ok(Kind::Install | Kind::Enable) => six,
        _ => seven,
    }
}

// The length of a frame's body, which stands behind the four bytes of its head.
fn body_length(f: &[u8]) -> usize
    ensures { result ≡ length f.now - 4 }
{
    f.len().saturating_sub(4)
}

// The tests of a body: 2 where its length is not its kind's, then 1 where the verdict is 0 (PROFILE 4.3).
fn fits(length: bool, verdict: u8) -> Result<(), Why>
    ensures { result ≡ tested length verdict (Ok tt) }
{
    if !length {
        return Err(Why::Parameter);
    }
    if verdict == 0 {
        return Err(Why::Integrity);
    }
    Ok(())
}

// Kinds 6, 7 and 9: a handle.
fn read_one(f: &[u8], verdict: u8, body: Body) -> Result<Asked, Why>
    ensures { result ≡ tested (eqb (length f.now - 4) handle_size) verdict (Ok (one_handle f.now None body)) }
{
    fits(body_length(f) == HANDLE_BYTES, verdict)?;
    Ok(Asked::with_handle(f, None, body))
}

// Kinds 3 and 4: a handle and the new handle.
fn read_two(f: &[u8], verdict: u8, body: Body) -> Result<Asked, Why>
    ensures { result ≡ tested (eqb (length f.now - 4) (2 * handle_size)) verdict (Ok (two_handles f.now body)) }
{
    fits(body_length(f) == TWO_HANDLES, verdict)?;
    Ok(Asked::with_two(f, body))
}

// Kind 1: a handle and a length, 12 bytes. A length of 0 is the agent's to refuse.
fn read_setup(f: &[u8], verdict: u8) -> Result<Asked, Why>
    ensures { result ≡ tested (eqb (length f.now - 4) 12) verdict (Ok (one_handle f.now None (body.Setup (word 14 f.now)))) }
{
    fits(body_length(f) == 12, verdict)?;
    let length = words::word_at(f, 14);
    Ok(Asked::with_handle(f, None, Body::Setup { length }))
}

// The field test of kind 5 (PROFILE 5.5), on a body of 12 bytes: without the bit, the number of the count is 0.
fn enable_fields(f: &[u8]) -> Result<Asked, Why>
    requires { 16 ≤ length f.now }
    ensures { result ≡ of_enable f.now }
{
    let kept = kept_in(f);
    let returned = words::word_at(f, 14);
    if !counts::count_holds(kept, returned) {
        return Err(Why::Parameter);
    }
    let count = counts::count_with(kept, returned);
    Ok(Asked::with_handle(f, count, Body::Enable))
}

// Kind 5: a handle and a count, 12 bytes.
fn read_enable(f: &[u8], verdict: u8) -> Result<Asked, Why>
    ensures { result ≡ tested (eqb (length f.now - 4) 12) verdict (of_enable f.now) }
{
    fits(body_length(f) == 12, verdict)?;
    enable_fields(f)
}

// The count of kind 2 (PROFILE 5.2), on a body whose hashes and payload hold: without the bit, its number is 0.
fn install_count(f: &[u8], hashes: usize, payload: usize) -> Result<Asked, Why>
    requires { 33 ≤ length f.now }
    ensures { result ≡ of_right f.now hashes payload }
{
    let kept = kept_in(f);
    let number = words::word_at(f, 30);
    if !counts::count_holds(kept, number) {
        return Err(Why::Parameter);
    }
    let count = counts::count_with(kept, number);
    Ok(Asked::with_right(f, count, hashes, payload))
}

// The hash count of kind 2: a course is found by its hashes, so it comes with one at least.
fn hashes_fit(n: usize) -> bool
    ensures { result ≡ (leb 1 n && leb n most_hashes) }
{
    (1 <= n) & (n <= MOST_HASHES)
}

// The field tests of kind 2 (PROFILE 5.2), on a body of 30 bytes or more.
fn install_fields(f: &[u8]) -> Result<Asked, Why>
    requires { 34 ≤ length f.now }
    ensures { result ≡ of_install (length f.now - 4) f.now }
{
    let hashes = usize::from(bits::fields::hash_count_of(f[32]));
    if !hashes_fit(hashes) {
        return Err(Why::Parameter);
    }
    if bits::fields::hash_count_rest(f[32]) != 0 {
        return Err(Why::Parameter);
    }
    let n = body_length(f);
    let start = 29 + HASH_BYTES * hashes;
    if n <= start {
        return Err(Why::Parameter);
    }
    let payload = n - start;
    if payload > MOST_PAYLOAD {
        return Err(Why::Parameter);
    }
    install_count(f, hashes, payload)
}

// Kind 2: a body of 30 bytes or more.
fn read_install(f: &[u8], verdict: u8) -> Result<Asked, Why>
    ensures { result ≡ tested (leb 30 (length f.now - 4)) verdict (of_install (length f.now - 4) f.now) }
{
    fits(30 <= body_length(f), verdict)?;
    install_fields(f)
}

// The field tests of kind 8 (PROFILE 5.8), on a body of 3 bytes or more.
fn list_fields(f: &[u8]) -> Result<Asked, Why>
    requires { 7 ≤ length f.now }
    ensures { result ≡ of_list (length f.now - 4) f.now }
{
    let count = usize::from(f[6]);
    if count > MOST_HASHES {
        return Err(Why::Parameter);
    }
    let n = body_length(f);
    if n != 3 + HASH_BYTES * count {
        return Err(Why::Parameter);
    }
    Ok(Asked::with_hashes(f, count))
}

// Kind 8: a limit, the hash count and the hashes, 3 bytes or more.
fn read_list(f: &[u8], verdict: u8) -> Result<Asked, Why>
    ensures { result ≡ tested (leb 3 (length f.now - 4)) verdict (of_list (length f.now - 4) f.now) }
{
    fits(3 <= body_length(f), verdict)?;
    list_fields(f)
}

// Kinds 8 and 9 ignore the verdict: it is taken to be 1.
#[tactic(auto, unfolding(crate::specs::Asking::of_kind))]
fn read_kind(f: &[u8], kind: Kind, verdict: u8) -> Result<Asked, Why>
    ensures { result ≡ of_kind (some (kind_meant kind)) (length f.now - 4) verdict f.now }
{
    match kind {
        Kind::Setup => read_setup(f, verdict),
        Kind::Install => read_install(f, verdict),
        Kind::Retrieve => read_two(f, verdict, Body::Retrieve),
        Kind::Rek => read_two(f, verdict, Body::Rek),
        Kind::Enable => read_enable(f, verdict),
        Kind::Remove => read_one(f, verdict, Body::Remove),
        Kind::Cancel => read_one(f, verdict, Body::Cancel),
        Kind::List => read_list(f, 1),
        Kind::Info => read_one(f, 1, Body::Info),
    }
}

// The tests of the four bytes of a head (PROFILE 4.3): 104, then 2, then 3. Of a head that holds, the kind.
fn read_head(f: &[u8]) -> Result<Kind, Why>
    ensures { HeadTells f.now result }
{
    if f.len() < 4 {
        return Err(Why::NoFrame);
    }
    let n = usize::from(words::word_at(f, 2));
    if f.len() != 4 + n {
        return Err(Why::NoFrame);
    }
    if bits::fields::frame_version(f[0]) != 1 {
        return Err(Why::Parameter);
    }
    let kind = Kind::try_from(bits::fields::frame_kind(f[0]));
    if !zero_bits(kind, f[1]) {
        return Err(Why::Parameter);
    }
    Ok(kind?)
}

// The tests of a head, and then those of the kind.
fn read_frame(f: &[u8]) -> Result<Asked, Why>
    ensures { result ≡ asked f.now }
{
    let kind = read_head(f)?;
    read_kind(f, kind, bits::fields::flag_of(f[1]))
}

// Every byte string is a request with its fields, or has exactly one refusal (PROFILE 6.1). Callers take the answer apart by let .. else.
pub fn read_request(f: &[u8]) -> Result<Asked, Why>
    ensures { Answers f.now result }
{
    read_frame(f)
}
