// A request's frame, written part by part (PROFILE 3.1 and 3.3).
ghost use Rattle.std.specs.Prelude.{◌≡◌, ◌∷◌, [], ◌++◌, ◌+◌, ◌*◌, ◌≤◌, ◌<◌, length, MatchResult};
ghost use Rattle.buffers.specs.Over.{over_at};
ghost use Rattle.codes.specs.Codes.{kind_code, number_in};
ghost use Rattle.codes.specs.declared.fault.Fault.TheVariants.{WriterBufferShort};
ghost use Rattle.profile.specs.Bytes.{word_bytes};
ghost use Rattle.profile.specs.Slot.{kept_bit};
ghost use Rattle.profile.specs.Frame.{frame};
ghost use Rattle.profile.specs.Device.{put};
ghost use Rattle.request_writer.specs.Writing.{wrote, started, parts_joined};

use codes::fault::Fault;
use codes::kind::Kind;
use profile::Count;

// The head of a body of n bytes: the verdict 1, the bit of a count, which is 0 for a kind that sends none, and six zero bits.
fn request_head(kind: Kind, count: Count, n: u16) -> [u8; 4]
    ensures { result ≡ started (kind_code kind) (kept_bit count) n [] }
{
    let second = bits::fields::request_second(counts::kept_bit(count));
    buffers::frame_start(kind.number(), second, n)
}

// A number of 16 bits and a hash byte, as they stand in front of the hashes of kinds 2 and 8.
pub(crate) fn counted(word: u16, hashes: u8) -> [u8; 3]
    ensures { result ≡ word_bytes word ++ (hashes ∷ []) }
{
    [words::high_of(word), words::low_of(word), hashes]
}

// How many bytes some parts have together.
fn size_of(parts: &[&[u8]]) -> usize
    requires { length (parts_joined parts.now) < 65536 }
    ensures { result ≡ length (parts_joined parts.now) }
{
    let mut size = 0;
    for part in parts {
        size += part.len();
    }
    size
}

// Parts one after another, from byte 4 of a buffer.
fn put_parts(out: &mut [u8], parts: &[&[u8]])
    requires { 4 + length (parts_joined parts.now) ≤ length out.old }
    ensures { out.new ≡ over_at 4 (parts_joined parts.now) out.old }
{
    let mut at = 4;
    for part in parts {
        buffers::put_bytes(out, at, part);
        at += part.len();
    }
}

// 201 where a buffer has no room for n bytes.
fn room(out: &[u8], n: usize) -> Result<(), Fault>
    ensures { MatchResult result (λ _. n ≤ length out.now) (λ e. (e ≡ WriterBufferShort) × (length out.now < n)) }
{
    if out.len() < n {
        Err(Fault::WriterBufferShort)
    } else {
        Ok(())
    }
}

// A frame, its body by its parts, with the verdict 1 and the bit of its count; 201 where the buffer is shorter than it. The rest of
// the buffer stays as found.
pub(crate) fn write_frame(
    out: &mut [u8],
    kind: Kind,
    count: Count,
    parts: &[&[u8]],
) -> Result<(), Fault>
    requires { length (parts_joined parts.now) < 65536 }
    ensures { wrote (number_in result) out.new ≡ put (frame (kind_code kind) (128 + 64 * kept_bit count) (parts_joined parts.now)) out.old }
{
    let size = size_of(parts);
    room(out, 4 + size)?;
    let head = request_head(kind, count, size as u16); // proved to lose nothing: the parts have fewer than 65,536 bytes
    buffers::put_bytes(out, 0, &head);
    put_parts(out, parts);
    Ok(())
}
