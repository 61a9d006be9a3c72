// Bytes of packed bit fields, taken apart and built by shifts and masks; the first field stands in the most significant bits.
// A function for each field that the profile names: its body is one shift and one mask already, so a generic one would only hide them. What comes in is the field's own
// number, whether it says a place, a kind or a bit: which numbers are meant is for those who know the field.
ghost use Rattle.std.specs.Prelude.{◌≡◌, ◌+◌, ◌*◌, ◌/◌, ◌%◌, ◌<◌, if◌then◌else◌};

// Byte 0 of a slot has the place, the hash count, the bit of a count and a spare bit (PROFILE 2.2): the place's number.
pub fn slot_place(b: u8) -> u8
    ensures { result ≡ b / 64 }
{
    b >> 6
}

// The hash count of slot byte 0. Four bits hold up to 15; which of these are well formed is for the slot to say (PROFILE 2.4).
pub fn slot_hashes(b: u8) -> u8
    ensures { result ≡ b / 4 % 16 }
{
    (b >> 2) & 15
}

// The bit of slot byte 0 that says whether a count is kept (PROFILE 2.6).
pub fn slot_kept(b: u8) -> u8
    ensures { result ≡ b / 2 % 2 }
{
    (b >> 1) & 1
}

// The spare bit of slot byte 0, which is 0 in a well-formed slot (PROFILE 2.4).
pub fn slot_spare(head: u8) -> u8
    ensures { result ≡ head % 2 }
{
    head & 1
}

// Slot byte 0 with a place, a hash count and the bit of a count, and its spare bit 0.
pub fn slot_head(place: u8, hashes: u8, kept: u8) -> u8
    requires { (place < 4) × (hashes < 16) × (kept < 2) }
    ensures { result ≡ 64 * place + 4 * hashes + 2 * kept }
{
    (place << 6) | ((hashes << 2) | (kept << 1))
}

// Byte 0 of a frame has the version and the kind (PROFILE 3.1): the version.
pub fn frame_version(b: u8) -> u8
    ensures { result ≡ b / 32 }
{
    b >> 5
}

// The kind of frame byte 0.
pub fn frame_kind(b: u8) -> u8
    ensures { result ≡ b % 32 }
{
    b & 31
}

// Frame byte 0 with a kind, of version 1.
pub fn frame_head(kind: u8) -> u8
    requires { kind < 32 }
    ensures { result ≡ 32 + kind }
{
    (1 << 5) | kind
}

// A flag is one bit above seven zero bits, as the verdict of a request and the more bit of a list are: the flag.
pub fn flag_of(b: u8) -> u8
    ensures { result ≡ b / 128 }
{
    b >> 7
}

// The seven bits below a flag, which must be 0.
pub fn flag_rest(b: u8) -> u8
    ensures { result ≡ b % 128 }
{
    b & 127
}

// A flag with seven zero bits below it.
pub fn flag_byte(on: bool) -> u8
    ensures { result ≡ (if on then 128 else 0) }
{
    u8::from(on) << 7
}

// A bit as a flag with seven zero bits below it: the second byte of a success, whose status is 0 (PROFILE 3.2).
pub fn flag_of_bit(bit: u8) -> u8
    requires { bit < 2 }
    ensures { result ≡ 128 * bit }
{
    bit << 7
}

// In a request with a count, the bit that says whether one is kept stands below the verdict (PROFILE 3.1).
pub fn request_kept(b: u8) -> u8
    ensures { result ≡ b / 64 % 2 }
{
    (b >> 6) & 1
}

// The six bits below it, which must be 0.
pub fn request_rest(second: u8) -> u8
    ensures { result ≡ second % 64 }
{
    second & 63
}

// The second byte of a request: the verdict 1, the bit of a count, and six zero bits.
pub fn request_second(kept: u8) -> u8
    requires { kept < 2 }
    ensures { result ≡ 128 + 64 * kept }
{
    (1 << 7) | (kept << 6)
}

// In a frame a hash count stands above four zero bits (PROFILE 3.3, 3.4): the hash count.
pub fn hash_count_of(b: u8) -> u8
    ensures { result ≡ b / 16 }
{
    b >> 4
}

// The four bits below a hash count, which must be 0.
pub fn hash_count_rest(b: u8) -> u8
    ensures { result ≡ b % 16 }
{
    b & 15
}

// A hash count with four zero bits below it.
pub fn hash_count_byte(n: u8) -> u8
    requires { n < 16 }
    ensures { result ≡ 16 * n }
{
    n << 4
}
