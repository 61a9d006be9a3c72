// Numbers of 16 bits, most significant byte first: counts, lengths and limits.
#![tactic(auto)]

ghost use Rattle.std.specs.Prelude.{◌≡◌, ◌+◌, ◌/◌, ◌%◌, ◌≤◌, length};
ghost use Rattle.profile.specs.Bytes.{word, word_bytes};

// A number's first byte.
pub fn high_of(n: u16) -> u8
    ensures { result ≡ n / 256 }
{
    let [high, _] = bytes_of(n);
    high
}

// A number's second byte.
pub fn low_of(n: u16) -> u8
    ensures { result ≡ n % 256 }
{
    let [_, low] = bytes_of(n);
    low
}

// The number at an offset of a slot or a frame. The bound is that of one offset in one byte string: no type outlives it.
pub fn word_at(s: &[u8], at: usize) -> u16
    requires { at + 2 ≤ length s.now }
    ensures { result ≡ word at s.now }
{
    u16::from_be_bytes([s[at], s[at + 1]])
}

// A number's two bytes, as they are put into a slot or a frame.
pub fn bytes_of(n: u16) -> [u8; 2]
    ensures { result ≡ word_bytes n }
{
    n.to_be_bytes()
}
