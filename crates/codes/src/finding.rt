// What a salvage finds of a slot (PROFILE 2.10), by its byte in the report.
ghost use Rattle.std.specs.Prelude.{◌≡◌};
ghost use Rattle.codes.specs.Codes.{finding_meant};
ghost use Rattle.profile.specs.Salvage.{finding_byte};

#[derive(Clone, Copy, PartialEq, Eq)]
pub enum Finding {
    Kept = 0,
    Damaged = 1,
    Repeated = 2,
}

impl Finding {
    // Its byte in the report.
    pub fn byte(self) -> u8
        ensures { result ≡ finding_byte (finding_meant self) }
    {
        self as u8 // its discriminant
    }
}
