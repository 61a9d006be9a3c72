// A table from standard input, as the programs read it (PROFILE 7.3).
#![tactic(auto)]

ghost use Rattle.std.specs.Prelude.{take};
ghost use Rattle.std.specs.Counts.{IsPrefixLen};
ghost use Rattle.std.specs.Io.KnownBytes.{Consumes};

use profile::sizes::{MOST_SLOTS, SLOT_BYTES};
use std::io::Read;

// The most that is read: one byte more than the largest table, which is enough to see that the input is too long (102).
pub const MOST_READ: usize = MOST_SLOTS * SLOT_BYTES + 1;

// Reads until `buf` is full, the input ends or a read fails, and gives how many bytes came. A read into a full `buf` gives none.
// The loops of std try a read again that was interrupted, and so would not end where this one does.
pub fn read_full<R: Read>(input: &mut R, buf: &mut [u8]) -> usize
    ensures within { IsPrefixLen result buf.new }
    ensures bytes { Consumes (R.remaining input.old) (R.remaining input.new) (take result buf.new) }
{
    let mut done = 0;
    while let Ok(n @ 1..) = input.read(&mut buf[done..]) {
        done += n;
    }
    done
}
