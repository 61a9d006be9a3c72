// The words and numbers of a line, put one after the other.
ghost use Rattle.std.specs.Prelude.{◌<◌, length};
ghost use Rattle.slots.specs.Places.{place_number};
ghost use Rattle.texts.specs.Put.{Put, Room};
ghost use Rattle.listing.specs.Written.{field, placed};

use slots::place::Place;
use texts::Text;

// A number, with a space in front of it.
pub(crate) fn put_field(text: &mut Text, n: usize)
    requires { (n < 65536) × Room (length (field n)) text.old }
    ensures { Put (field n) text.old text.new }
{
    text.word(b" ");
    text.number(n);
}

// A place, as its word.
pub(crate) fn put_place(text: &mut Text, place: Place)
    requires { Room 8 text.old }
    ensures { Put (placed (place_number place)) text.old text.new }
{
    match place {
        Place::Empty => text.word(b"empty"),
        Place::Reserved => text.word(b"reserved"),
        Place::Enabled => text.word(b"enabled"),
        Place::Disabled => text.word(b"disabled"),
    }
}
