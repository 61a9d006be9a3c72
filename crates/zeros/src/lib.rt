// Zero bytes: tested, since the unused bytes of a well-formed slot are zero, and written, where a slot is cleared.
#![tactic(auto)]

ghost use Rattle.std.specs.Prelude.{◌≡◌, ◌-◌, ◌≤◌, length};
ghost use Rattle.profile.specs.Bytes.{all_zero, joined, part, zeros};

// Every byte is read, with no exit between, so that the loop becomes vector code.
fn zero_block(s: &[u8]) -> bool
    ensures { result ≡ all_zero s.now }
{
    let mut acc = 0;
    for &b in s {
        acc |= b;
    }
    acc == 0
}

// Whether all bytes of some blocks are zero, with an exit after each block that has another byte.
fn zero_blocks<const N: usize>(blocks: &[[u8; N]]) -> bool
    ensures { result ≡ all_zero (joined blocks.now) }
{
    for block in blocks {
        if !zero_block(block) {
            return false;
        }
    }
    true
}

// Whether all bytes are zero, as those of an empty slot are (PROFILE 2.4), by blocks of 1,024 bytes.
pub fn all_zero(s: &[u8]) -> bool
    ensures { result ≡ all_zero s.now }
{
    let (blocks, rest) = s.as_chunks::<1024>();
    zero_blocks(blocks) && zero_block(rest)
}

// Some bytes: blocks of 64, and then the last 64 bytes once more, which include those that no block had.
fn zero_rest(s: &[u8]) -> bool
    ensures { result ≡ all_zero s.now }
{
    match s.last_chunk::<64>() {
        None => zero_block(s),
        Some(last) => zero_blocks(s.as_chunks::<64>().0) && zero_block(last),
    }
}

// Whether a part of a slot is zero, as the bytes after the last hash and after the payload are (PROFILE 2.4). The part may have any length. It is told by
// its ends, which are the profile's offsets.
pub fn zero_part(s: &[u8], from: usize, to: usize) -> bool
    requires { (from ≤ to) × (to ≤ length s.now) }
    ensures { result ≡ all_zero (part from (to - from) s.now) }
{
    let (blocks, rest) = s[from..to].as_chunks::<512>();
    zero_blocks(blocks) && zero_rest(rest)
}

// Makes all bytes zero that are lent, as the removals do with a slot (PROFILE 5.6, 5.7).
#[tactic(auto, unfolding(profile::specs::Bytes::zeros))]
pub fn clear(d: &mut [u8])
    ensures { d.new ≡ zeros (length d.old) }
{
    d.fill(0);
}
