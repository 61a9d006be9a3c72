// The lines of a listing (PROFILE 7.1): index, place, hash count, count and payload length, with one space between and a newline after.
ghost use Rattle.std.specs.Prelude.{◌*◌, ◌<◌};
ghost use Rattle.profile.specs.Sizes.{most_slots};
ghost use Rattle.profile.specs.Table.{hash_count_of, length_of};
ghost use Rattle.slots.specs.Places.{place_number};
ghost use Rattle.texts.specs.Put.{Put, Room};
ghost use Rattle.listing.specs.Written.{label_of, sizes_of, line_of, lines_of, Listable};

use crate::put::{put_field, put_place};
use slots::Slot;
use slots::place::Place;
use texts::Text;

// The front of a line: index and place.
fn put_label(text: &mut Text, i: usize, place: Place)
    requires { (i < 100) × Room 11 text.old }
    ensures { Put (label_of i (place_number place)) text.old text.new }
{
    text.number(i);
    text.word(b" ");
    put_place(text, place);
}

// The rest of it: hash count, the count's number and payload length, and the newline. The listing does not show whether a count is kept.
fn put_sizes(text: &mut Text, hashes: usize, count: u16, size: usize)
    requires { (hashes < 10) × (size < 10000) × Room 14 text.old }
    ensures { Put (sizes_of hashes count size) text.old text.new }
{
    put_field(text, hashes);
    put_field(text, usize::from(count));
    put_field(text, size);
    text.word(b"\n");
}

// One slot's line, of 25 bytes at the most.
fn put_line(text: &mut Text, i: usize, slot: &Slot)
    requires { (i < 100) × (hash_count_of slot.now < 10) × (length_of slot.now < 10000) × Room 25 text.old }
    ensures { Put (line_of i slot.now) text.old text.new }
{
    let head = slots::head::head_of(slot);
    put_label(text, i, head.place);
    put_sizes(
        text,
        head.hashes,
        counts::number_of(head.count),
        head.length,
    );
}

// The lines of all slots. The first has the index 0.
pub(crate) fn put_lines(text: &mut Text, table: &[u8])
    requires { Listable table.now × Room (25 * most_slots) text.old }
    ensures { Put (lines_of table.now) text.old text.new }
{
    for (i, slot) in tables::part::slots_in(table).iter().enumerate() {
        put_line(text, i, slot);
    }
}
