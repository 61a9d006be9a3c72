// What a slot counts for in a tally, and tallies taken off and added up, number by number (PROFILE 2.8).
ghost use Rattle.std.specs.Prelude.{◌≡◌};
ghost use Rattle.profile.specs.Tally.{plus};
ghost use Rattle.tallies.specs.Shares.{share, less, Within, Small};

use profile::Tally;
use slots::place::Place;

const NOTHING: Tally = Tally {
    empty: 0,
    reserved: 0,
    enabled: 0,
    disabled: 0,
    payload: 0,
};

// One of its place and, of a right, the length. A reservation has no payload yet.
pub(crate) fn share(place: Place, length: u16) -> Tally
    ensures { result ≡ share place length }
{
    match place {
        Place::Empty => Tally {
            empty: 1,
            ..NOTHING
        },
        Place::Reserved => Tally {
            reserved: 1,
            ..NOTHING
        },
        Place::Enabled => Tally {
            enabled: 1,
            payload: length,
            ..NOTHING
        },
        Place::Disabled => Tally {
            disabled: 1,
            payload: length,
            ..NOTHING
        },
    }
}

pub(crate) fn less(a: Tally, b: Tally) -> Tally
    requires { Within b a }
    ensures { result ≡ less a b }
{
    Tally {
        empty: a.empty - b.empty,
        reserved: a.reserved - b.reserved,
        enabled: a.enabled - b.enabled,
        disabled: a.disabled - b.disabled,
        payload: a.payload - b.payload,
    }
}

pub(crate) fn plus(a: Tally, b: Tally) -> Tally
    requires { Small (plus a b) }
    ensures { result ≡ plus a b }
{
    Tally {
        empty: a.empty + b.empty,
        reserved: a.reserved + b.reserved,
        enabled: a.enabled + b.enabled,
        disabled: a.disabled + b.disabled,
        payload: a.payload + b.payload,
    }
}
