// A salvage with its report in words, as the program `cardsalvage` prints them (PROFILE 2.11).
#![tactic(auto)]

ghost use Rattle.reports.specs.Printing.{Prints};

use profile::sizes::{MOST_SLOTS, SLOT_BYTES};
use texts::Text;

mod lines; // lines.rt: the line of a slot, those of all slots, and the line of the number

// Room for every report: for each slot a line of at most 12 bytes, which is what an index of two digits, a space, a word of eight letters
// and a newline come to, and a last line of at most 11.
pub const REPORT_ROOM: usize = 12 * MOST_SLOTS + 11;

// How many bytes there are to print: of the table, and of the text.
#[derive(Clone, Copy, PartialEq, Eq)]
pub struct Printed {
    pub table: usize,
    pub text: usize,
}

// Salvages a table where it stands, and writes the report in words. Of a refused table there is the line that says so, and nothing else.
pub fn salvage_in_words(table: &mut [u8], text: &mut [u8; REPORT_ROOM]) -> Printed
    ensures { Prints table.old text.old table.new text.new result.table result.text }
{
    let mut report = [0u8; MOST_SLOTS];
    let mut words = Text::new(text, 0);
    match salvage::salvage(table, &mut report) {
        Err(fault) => {
            words.refused(usize::from(fault.number()));
            Printed {
                table: 0,
                text: words.end(),
            }
        }
        Ok(cleared) => {
            lines::put_lines(&mut words, &report[..table.len() / SLOT_BYTES]);
            lines::put_cleared(&mut words, usize::from(cleared));
            Printed {
                table: table.len(),
                text: words.end(),
            }
        }
    }
}
