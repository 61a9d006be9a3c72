// The kinds of a request and of its reply (PROFILE 3.3), by their numbers.
ghost use Rattle.std.specs.Prelude.{◌≡◌, ◌<◌};
ghost use Rattle.codes.specs.Codes.{kind_code, kind_told};
ghost use Rattle.profile.specs.Frame.{kind_of};

#[derive(Clone, Copy, PartialEq, Eq)]
pub enum Kind {
    Setup = 1,
    Install = 2,
    Retrieve = 3,
    Rek = 4,
    Enable = 5,
    Remove = 6,
    Cancel = 7,
    List = 8,
    Info = 9,
}

impl Kind {
    // It has room in the five bits of a frame.
    pub fn number(self) -> u8
        ensures is { result ≡ kind_code self }
        ensures fits { result < 32 }
    {
        self as u8 // its discriminant
    }
}

// A number that is no kind's.
#[derive(Clone, Copy, PartialEq, Eq)]
pub struct UnknownKind;

impl TryFrom<u8> for Kind {
    type Error = UnknownKind;

    ghost try_from_gives = { λ n r. kind_told r ≡ kind_of n };

    fn try_from(number: u8) -> Result<Kind, UnknownKind> {
        match number {
            1 => Ok(Kind::Setup),
            2 => Ok(Kind::Install),
            3 => Ok(Kind::Retrieve),
            4 => Ok(Kind::Rek),
            5 => Ok(Kind::Enable),
            6 => Ok(Kind::Remove),
            7 => Ok(Kind::Cancel),
            8 => Ok(Kind::List),
            9 => Ok(Kind::Info),
            _ => Err(UnknownKind),
        }
    }
}
