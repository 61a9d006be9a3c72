// The request writer (PROFILE 6.2): 202, then 201, then the frame.
ghost use Rattle.std.specs.Prelude.{◌≡◌, true, ◌&&◌};
ghost use Rattle.codes.specs.Codes.{kind_meant, number_in};
ghost use Rattle.profile.specs.Request.{write_request as request_written};
ghost use Rattle.profile.specs.Device.{whole_hashes, kind_holds, request_of, put, write};
ghost use Rattle.request_fields.specs.Given.{fields_of};
ghost use Rattle.request_writer.specs.Writing.{wrote};

use crate::frames::{counted, write_frame};
use codes::fault::Fault;
use codes::kind::Kind;
use profile::sizes::HASH_BYTES;
use request_fields::Fields;

// The parts of each kind (PROFILE 3.3), once its fields are allowed.
fn write_kind(kind: Kind, f: &Fields, out: &mut [u8]) -> Result<(), Fault>
    requires { (whole_hashes f.now.hashes.now && kind_holds (kind_meant kind) (fields_of f.now)) ≡ true }
    ensures { wrote (number_in result) out.new ≡ put (request_written (request_of (kind_meant kind) (fields_of f.now))) out.old }
{
    let none = None;
    let count = counts::count_with(f.kept, f.count);
    // Copies, since the references of one array are to live equally long.
    let handle = f.handle;
    let new = f.new;
    let key = f.key;
    let number = counts::number_of(count);
    let bytes = words::bytes_of(number);
    let room = words::bytes_of(f.room);
    let n = (f.hashes.len() / HASH_BYTES) as u8; // at most 8, so that `as` loses nothing
    let listed = counted(f.limit, n);
    match kind {
        Kind::Setup => write_frame(out, kind, none, &[&handle, &room]),
        Kind::Install => {
            let three = counted(number, bits::fields::hash_count_byte(n));
            let hashes = &f.hashes[..];
            let payload = &f.payload[..];
            write_frame(out, kind, count, &[&handle, &key, &three, hashes, payload])
        }
        Kind::Retrieve | Kind::Rek => write_frame(out, kind, none, &[&handle, &new]),
        Kind::Enable => write_frame(out, kind, count, &[&handle, &bytes]),
        Kind::Remove | Kind::Cancel | Kind::Info => write_frame(out, kind, none, &[&handle]),
        Kind::List => write_frame(out, kind, none, &[&listed, &f.hashes[..]]),
    }
}

// A kind and fields, written as a request with the verdict 1 and the bit of its count. It is refused with 202 for its kind or fields, and
// then with 201 where the buffer is shorter than the frame.
#[tactic(auto, unfolding(profile::specs::Device::write))]
pub fn write_request(kind: u8, f: &Fields, out: &mut [u8]) -> Result<(), Fault>
    ensures { wrote (number_in result) out.new ≡ write kind (fields_of f.now) out.old }
{
    let allowed = f.whole_hashes() & f.kind_allows(kind);
    match Kind::try_from(kind) {
        Ok(known) if allowed => write_kind(known, f, out),
        _ => Err(Fault::WriterFields),
    }
}
