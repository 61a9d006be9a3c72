// Fields of bits, which are packed from the most significant bit on.
#![tactic(auto)]

pub mod fields; // fields.rt: bytes of packed bit fields, by shifts and masks
