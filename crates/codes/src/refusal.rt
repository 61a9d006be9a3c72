// Why a request is refused (PROFILE 4.2): every status of a reply but 0, by its number.
ghost use Rattle.std.specs.Prelude.{◌≡◌, ◌<◌};
ghost use Rattle.codes.specs.Codes.{refusal_meant, RefusalTold, status_in};
ghost use Rattle.profile.specs.Frame.{code};

// The status of a request that is served.
pub const SUCCESS: u8 = 0;

#[derive(Clone, Copy, PartialEq, Eq)]
pub enum Refusal {
    FieldIntegrityVerificationFailed = 1,
    ParameterFailed = 2,
    RequestNotSupported = 3,
    HandleNotFound = 4,
    DuplicateHandle = 5,
    UnexpectedRequest = 6,
    NotEnoughSpace = 7,
    CountRaised = 9,
}

impl Refusal {
    // The status that says it.
    pub fn status(self) -> u8
        ensures { result ≡ code (refusal_meant self) }
    {
        self as u8 // its discriminant
    }
}

// The status of a reply: 0, or the one that says why the request is refused.
pub fn status_of(served: Result<(), Refusal>) -> u8
    ensures { result ≡ status_in served }
{
    match served {
        Ok(()) => SUCCESS,
        Err(refusal) => refusal.status(),
    }
}

// A number that says no refusal: 0, or none of the statuses.
#[derive(Clone, Copy, PartialEq, Eq)]
pub struct NoRefusal;

impl TryFrom<u8> for Refusal {
    type Error = NoRefusal;

    ghost try_from_gives = { RefusalTold };

    fn try_from(status: u8) -> Result<Refusal, NoRefusal> {
        match status {
            1 => Ok(Refusal::FieldIntegrityVerificationFailed),
            2 => Ok(Refusal::ParameterFailed),
            3 => Ok(Refusal::RequestNotSupported),
            4 => Ok(Refusal::HandleNotFound),
            5 => Ok(Refusal::DuplicateHandle),
            6 => Ok(Refusal::UnexpectedRequest),
            7 => Ok(Refusal::NotEnoughSpace),
            9 => Ok(Refusal::CountRaised),
            _ => Err(NoRefusal),
        }
    }
}
