// Why a function refuses what it is lent or given (PROFILE 4.1, 6.2 and 6.3), each by its number. Where it refuses, all lent memory stays as
// it was; where it does not, its number is 0.
ghost use Rattle.std.specs.Prelude.{◌≡◌};
ghost use Rattle.codes.specs.Codes.{fault_number, number_in};

// The number of what is done.
pub const DONE: u16 = 0;

#[derive(Clone, Copy, PartialEq, Eq)]
pub enum Fault {
    // The call's.
    ReplyBufferShort = 101,
    TableLength = 102,
    TableNotWellFormed = 103,
    NoFrame = 104,
    StartOutside = 105,
    TallyDiffers = 106,
    // The salvage's own (PROFILE 2.10).
    ReportBufferShort = 107,
    // The totalling call's own (PROFILE 4.5).
    TotalOutside = 108,
    // The request writer's.
    WriterBufferShort = 201,
    WriterFields = 202,
    // The reply reader's.
    NoReply = 203,
}

impl Fault {
    pub fn number(self) -> u16
        ensures { result ≡ fault_number self }
    {
        self as u16 // its discriminant
    }
}

// The number of what a function did: 0, or the one that says why it refused.
pub fn number_of(done: Result<(), Fault>) -> u16
    ensures { result ≡ number_in done }
{
    match done {
        Ok(()) => DONE,
        Err(fault) => fault.number(),
    }
}
