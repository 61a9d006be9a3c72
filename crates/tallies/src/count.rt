// A tally worked out from the heads of all slots, and compared with another (PROFILE 2.8).
ghost use Rattle.std.specs.Prelude.{◌≡◌, ◌<◌, true};
ghost use Rattle.profile.specs.Table.{whole_slots, well_table};
ghost use Rattle.profile.specs.Tally.{tally_in, same_tally};
ghost use Rattle.slots.specs.Places.{place_number};
ghost use Rattle.tallies.specs.Shares.{in_sum};

use profile::Tally;
use profile::slot::LENGTH_AT;
use slots::place::{Place, place_of};

// What one slot of a place adds to the count of places: four counts of 16 bits in one number, the empty ones lowest.
const ONE: [u64; 4] = [1, 65536, 4294967296, 281474976710656];

// A place by its number, since a match on the place becomes a jump in each turn of the loop below.
fn number_of(place: Place) -> usize
    ensures { (result ≡ place_number place) × (result < 4) }
{
    usize::from(place.number())
}

// What a slot of a place and length adds to the sum: nothing, unless it holds a right. A reservation has no payload yet.
#[tactic(auto, using(crate::proofs::Counting::no_right, crate::proofs::Counting::of_right))]
fn in_sum(place: usize, length: u16) -> u16
    ensures { result ≡ in_sum place length }
{
    if place < 2 {
        return 0;
    }
    length
}

// The tally of a well-formed table. Four counts of at most 15 slots have room in one number, and so one sum serves all places. `as` is proved to lose
// nothing; a TryFrom would bring an Err that cannot come.
pub fn tally_of(t: &[u8]) -> Tally
    requires { (whole_slots t.now ≡ true) × (well_table t.now ≡ true) }
    ensures { result ≡ tally_in t.now }
{
    let one = ONE; // a local, since an index into a constant builds its array anew in each turn
    let mut places: u64 = 0;
    let mut payload: u16 = 0;
    for s in tables::part::slots_in(t) {
        let place = number_of(place_of(s));
        places += one[place];
        payload += in_sum(place, words::word_at(s, LENGTH_AT));
    }
    Tally {
        empty: (places % 65536) as u16,
        reserved: ((places >> 16) % 65536) as u16,
        enabled: ((places >> 32) % 65536) as u16,
        disabled: (places >> 48) as u16,
        payload,
    }
}

// The same five numbers? Apart from `==`, since its promise is `same_tally` of the profile.
pub fn same(a: Tally, b: Tally) -> bool
    ensures { result ≡ same_tally a b }
{
    a == b
}
