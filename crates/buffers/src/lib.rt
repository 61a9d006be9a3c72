// Bytes written into a lent buffer; all its other bytes stay as they are.
#![tactic(auto)]

ghost use Rattle.std.specs.Prelude.{◌≡◌, ◌∷◌, ◌+◌, ◌≤◌, ◌<◌, length};
ghost use Rattle.profile.specs.Bytes.{word_bytes};
ghost use Rattle.buffers.specs.Over.{over_at};

// Bytes copied into a part that is lent. The loop becomes a memcpy, since the two share no byte; `copy_from_slice` becomes a memmove, which whoever
// links the archive need not have.
fn copy(d: &mut [u8], s: &[u8])
    requires { length d.old ≡ length s.now }
    ensures { d.new ≡ s.now }
{
    for i in 0..d.len() {
        d[i] = s[i];
    }
}

// Whole byte strings go into a buffer at an offset, as heads, handles and keys do; the bytes before and after them stay.
pub fn put_bytes(out: &mut [u8], at: usize, s: &[u8])
    requires { at + length s.now ≤ length out.old }
    ensures { out.new ≡ over_at at s.now out.old }
{
    copy(&mut out[at..at + s.len()], s);
}

// A number of 16 bits goes into a buffer at an offset.
pub fn put_word(out: &mut [u8], at: usize, n: u16)
    requires { at + 2 ≤ length out.old }
    ensures { out.new ≡ over_at at (word_bytes n) out.old }
{
    let w = words::bytes_of(n);
    put_bytes(out, at, &w);
}

// The head of a frame, as an array by value: the four bytes before a body of n bytes. The second is a verdict or a status (PROFILE 3.1, 3.2).
pub fn frame_start(kind: u8, second: u8, n: u16) -> [u8; 4]
    requires { kind < 32 }
    ensures { result ≡ (32 + kind) ∷ second ∷ word_bytes n }
{
    let first = bits::fields::frame_head(kind);
    let [high, low] = words::bytes_of(n);
    [first, second, high, low]
}
