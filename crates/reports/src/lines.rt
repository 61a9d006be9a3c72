// The lines of a report (PROFILE 2.11): for each slot its index and what was found of it, and the number of slots cleared.
ghost use Rattle.std.specs.Prelude.{◌+◌, ◌*◌, ◌<◌, ◌≤◌, length};
ghost use Rattle.profile.specs.Sizes.{most_slots};
ghost use Rattle.texts.specs.Put.{Put, Room};
ghost use Rattle.reports.specs.Printing.{word_of, line_of, lines_of, cleared_text};

use codes::finding::Finding;
use texts::Text;

// The bytes of a report, as patterns.
const KEPT: u8 = Finding::Kept as u8;

const DAMAGED: u8 = Finding::Damaged as u8;

// What was found of a slot, as its word. It is a byte, since the report that is lent from C is bytes (`cavernlull_salvage`).
fn put_finding(text: &mut Text, found: u8)
    requires { Room 8 text.old }
    ensures { Put (word_of found) text.old text.new }
{
    match found {
        KEPT => text.word(b"kept"),
        DAMAGED => text.word(b"damaged"),
        _ => text.word(b"repeated"),
    }
}

// One slot's line, of 12 bytes at the most.
fn put_line(text: &mut Text, i: usize, found: u8)
    requires { (i < 100) × Room 12 text.old }
    ensures { Put (line_of i found) text.old text.new }
{
    text.number(i);
    text.word(b" ");
    put_finding(text, found);
    text.word(b"\n");
}

// The lines of the slots in a report. The first has the index 0.
pub(crate) fn put_lines(text: &mut Text, report: &[u8])
    requires { (length report.now ≤ most_slots) × Room (12 * most_slots) text.old }
    ensures put { Put (lines_of report.now) text.old text.new }
    ensures short { text.new.at ≤ text.old.at + 12 * length report.now }
{
    for (i, &found) in report.iter().enumerate() {
        put_line(text, i, found);
    }
}

// The last line, of 11 bytes at the most.
pub(crate) fn put_cleared(text: &mut Text, n: usize)
    requires { (n < 100) × Room 11 text.old }
    ensures { Put (cleared_text n) text.old text.new }
{
    text.numbered(b"cleared ", n);
}
