// The place of a record (PROFILE 2.3).
ghost use Rattle.std.specs.Prelude.{◌≡◌, ◌<◌, length};
ghost use Rattle.profile.specs.Table.{place_of};
ghost use Rattle.slots.specs.Places.{place_number};

#[derive(Clone, Copy, PartialEq, Eq)]
pub enum Place {
    Empty,
    Reserved,
    Enabled,
    Disabled,
}

impl Place {
    // Its number, which has room in the two bits of a slot.
    pub fn number(self) -> u8
        ensures { (result ≡ place_number self) × (result < 4) }
    {
        self as u8 // its discriminant
    }
}

// The two bits of the place have four values, so every slot has one of the four places. One byte is enough to tell it, so the rest of the slot
// is not asked for.
pub fn place_of(s: &[u8]) -> Place
    requires { 0 < length s.now }
    ensures { place_number result ≡ place_of s.now }
{
    match bits::fields::slot_place(s[0]) {
        0 => Place::Empty,
        1 => Place::Reserved,
        2 => Place::Enabled,
        _ => Place::Disabled,
    }
}
