// The fields that the request writer is given (PROFILE 6.2), and which of them a kind allows: the tests that give 202.
#![tactic(auto)]

ghost use Rattle.std.specs.Prelude.{◌≡◌, ◌&&◌, leb, length};
ghost use Rattle.codes.specs.Codes.{kind_meant};
ghost use Rattle.profile.specs.Bytes.{from1to};
ghost use Rattle.profile.specs.Sizes.{most_payload};
ghost use Rattle.profile.specs.Slot.{count_holds};
ghost use Rattle.profile.specs.Frame.{kind_of};
ghost use Rattle.profile.specs.Device.{kind_holds, whole_hashes as hashes_whole};
ghost use Rattle.request_fields.specs.Given.{fields_of, kind_allows};

use codes::kind::Kind;
use profile::sizes::{HANDLE_BYTES, HASH_BYTES, KEY_BYTES, MOST_HASHES, MOST_PAYLOAD};

// The fields of all kinds. The hashes and the payload are lent and not copied. `room` is the length of kind 1. A count is given by its
// number and its bit, `kept`: not every two of these say a count, and the tests find those that do not.
#[derive(Clone, Copy)]
pub struct Fields<'a> {
    pub handle: [u8; HANDLE_BYTES],
    pub new: [u8; HANDLE_BYTES],
    pub key: [u8; KEY_BYTES],
    pub room: u16,
    pub count: u16,
    pub kept: u8,
    pub limit: u16,
    pub hashes: &'a [u8],
    pub payload: &'a [u8],
}

// The payload of kind 2 must be 1 to 4,096 bytes long.
fn payload_fits(s: &[u8]) -> bool
    ensures { result ≡ from1to most_payload (length s.now) }
{
    (0 < s.len()) & (s.len() <= MOST_PAYLOAD)
}

// The count of kinds 2 and 5: `kept` must be one bit, and without it the number must be 0.
fn count_says(count: u16, kept: u8) -> bool
    ensures { result ≡ (leb kept 1 && count_holds kept count) }
{
    (kept <= 1) & counts::count_holds(kept, count)
}

impl<'a> Fields<'a> {
    // The hash bytes must be whole hashes, 8 at the most.
    pub fn whole_hashes(&self) -> bool
        ensures { result ≡ hashes_whole self.now.hashes.now }
    {
        (self.hashes.len() % HASH_BYTES == 0) & (self.hashes.len() / HASH_BYTES <= MOST_HASHES)
    }

    // Every field that the kind lacks must be empty or zero; kinds 2 and 5 must say a count, and kind 2 must have a hash, by which its
    // course is found, and a payload that fits.
    pub fn fit(&self, kind: Kind) -> bool
        ensures { result ≡ kind_holds (kind_meant kind) (fields_of self.now) }
    {
        let no_handle = zeros::all_zero(&self.handle);
        let no_new = zeros::all_zero(&self.new);
        let no_key = zeros::all_zero(&self.key);
        let no_room = self.room == 0;
        let no_count = (self.count == 0) & (self.kept == 0);
        let no_limit = self.limit == 0;
        let no_hashes = self.hashes.is_empty();
        let no_payload = self.payload.is_empty();
        let fits = payload_fits(self.payload);
        let says = count_says(self.count, self.kept);
        match kind {
            Kind::Setup => no_new & no_key & no_count & no_limit & no_hashes & no_payload,
            Kind::Install => no_new & no_room & no_limit & says & !no_hashes & fits,
            Kind::Retrieve | Kind::Rek => {
                no_key & no_room & no_count & no_limit & no_hashes & no_payload
            }
            Kind::Enable => no_new & no_key & no_room & no_limit & no_hashes & no_payload & says,
            Kind::List => no_handle & no_new & no_key & no_room & no_count & no_payload,
            Kind::Remove | Kind::Cancel | Kind::Info => {
                no_new & no_key & no_room & no_count & no_limit & no_hashes & no_payload
            }
        }
    }

    // Whether a kind, by its number, has these fields: the number must be one of the nine, and the fields must fit.
    pub fn kind_allows(&self, kind: u8) -> bool
        ensures { result ≡ kind_allows (kind_of kind) (fields_of self.now) }
    {
        match Kind::try_from(kind) {
            Ok(known) => self.fit(known),
            Err(_) => false,
        }
    }
}
