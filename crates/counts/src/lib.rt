// A count by its bit and its number, as slots and frames have them (PROFILE 2.6). The two are taken apart: not every two of them say a count,
// and the tests find those that do not.
#![tactic(auto)]

ghost use Rattle.std.specs.Prelude.{◌≡◌, ◌<◌};
ghost use Rattle.profile.specs.Slot.{kept_bit, count_number, count_holds, count_with, raises as count_raises};

use profile::Count;

// Whether a bit and a number say a count: without the bit, the number must be 0.
pub fn count_holds(bit: u8, n: u16) -> bool
    ensures { result ≡ count_holds bit n }
{
    (bit != 0) | (n == 0)
}

// The count that they say. With the bit it is kept, also where it is 0.
pub fn count_with(bit: u8, n: u16) -> Count
    ensures { result ≡ count_with bit n }
{
    (bit != 0).then_some(n)
}

// The bit of a count: 1 where one is kept.
pub fn kept_bit(count: Count) -> u8
    ensures { (result ≡ kept_bit count) × (result < 2) }
{
    u8::from(count.is_some())
}

// The number of a count: 0 where none is kept.
pub fn number_of(count: Count) -> u16
    ensures { result ≡ count_number count }
{
    count.unwrap_or(0)
}

// Whether the count sent raises the one that is stored (PROFILE 5.5): exactly one of them is kept, or both are and the one sent is greater.
pub fn raises(stored: Count, sent: Count) -> bool
    ensures { result ≡ count_raises stored sent }
{
    match (stored, sent) {
        (Some(a), Some(b)) => a < b,
        (a, b) => a.is_some() != b.is_some(),
    }
}
