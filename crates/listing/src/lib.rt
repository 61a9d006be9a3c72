// The listing of a table, as the program `cardlist` prints it (PROFILE 7.1): a header, and then a line for each slot.
#![tactic(auto)]

ghost use Rattle.std.specs.Prelude.{◌≡◌, length, MatchResult};
ghost use Rattle.profile.specs.Bytes.{over};
ghost use Rattle.profile.specs.Listing.{listing};
ghost use Rattle.listing.specs.Written.{Listable, Refuses};

use codes::fault::Fault;
use profile::sizes::MOST_SLOTS;
use texts::Text;

mod put; // put.rt: the words and numbers of a line
mod lines; // lines.rt: the line of a slot, and those of all slots

// Room for every listing: a header of 31 bytes, and for each slot a line of at most 25, which is what an index of two digits, a word of
// eight letters, one digit of hashes, five of a count and four of a length come to, with four spaces and a newline.
pub const LISTING_ROOM: usize = 31 + 25 * MOST_SLOTS;

// Whether a table is listed, or why it is refused (PROFILE 7.2): by its length, or else by its form.
fn judge(table: &[u8]) -> Result<(), Fault>
    ensures { MatchResult result (λ _. Listable table.now) (λ f. Refuses table.now f) }
{
    if !tables::part::whole_slots(table) {
        return Err(Fault::TableLength);
    }
    if !tables::table::well_table(table) {
        return Err(Fault::TableNotWellFormed);
    }
    Ok(())
}

// The listing of any bytes at all; of a table that the card refuses it is one line (PROFILE 7.2).
pub fn list(table: &[u8], out: &mut [u8; LISTING_ROOM]) -> usize
    ensures { (result ≡ length (listing table.now)) × (out.new ≡ over (listing table.now) out.old) }
{
    let mut text = Text::new(out, 0);
    // 102 has an arm of its own, so that its digits are worked out when this is compiled: of a table of another length nothing is read.
    match judge(table) {
        Ok(()) => {}
        Err(Fault::TableLength) => {
            text.refused(usize::from(Fault::TableLength.number()));
            return text.end();
        }
        Err(fault) => {
            text.refused(usize::from(fault.number()));
            return text.end();
        }
    }
    text.word(b"slot place hashes count length\n");
    lines::put_lines(&mut text, table);
    text.end()
}
