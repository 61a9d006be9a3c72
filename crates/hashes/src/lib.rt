// The hashes of a record against those of a list query (PROFILE 5.8), which are lent and not copied.
#![tactic(auto)]

ghost use Rattle.std.specs.Prelude.{◌≡◌, [], ◌∷◌, ◌≤◌, ◌*◌, length, if◌then◌else◌};
ghost use Rattle.profile.specs.Bytes.{pieces, same, any};
ghost use Rattle.profile.specs.Sizes.{hash_size, most_hashes};
ghost use Rattle.profile.specs.Table.{unpack, hash_count_of, handle_of, right_of};
ghost use Rattle.profile.specs.Agent.{listed_slot};
ghost use Rattle.hashes.specs.Readers.{hash_at, HashStands};

use profile::sizes::HASH_BYTES;
use profile::slot::{GAP_AT, HASHES_AT};
use slots::Slot;
use slots::place::{Place, place_of};

mod reader; // reader.rt: the hashes of a record, one at a time

// Whether a query's hash is hash i of the record.
fn is_hash(bytes: &[u8], i: usize, asked: &[u8; HASH_BYTES]) -> bool
    requires { HashStands i bytes.now }
    ensures { result ≡ same asked.now (hash_at i bytes.now) }
{
    octets::compare::same_from(asked, &reader::hash_of(bytes, i), 0)
}

// Whether a query's hash is one of the record's, which are read from the slot one after another, without a copy of the list.
fn has_hash(bytes: &[u8], count: usize, asked: &[u8; HASH_BYTES]) -> bool
    requires { hash_size * count ≤ length bytes.now }
    ensures { result ≡ any (same asked.now) (pieces hash_size count bytes.now) }
{
    (0..count).any(|i| is_hash(bytes, i, asked))
}

// Whether one of the query's hashes is one of the record's.
fn has_one_of(bytes: &[u8], count: usize, q: &[[u8; HASH_BYTES]]) -> bool
    requires { hash_size * count ≤ length bytes.now }
    ensures { result ≡ any (λ x. any (same x) (pieces hash_size count bytes.now)) q.now }
{
    q.iter().any(|asked| has_hash(bytes, count, asked))
}

// Whether one of the record's hashes is one of the query's. If the record has no hash, the query is not looked at. Never inlined: the query's array,
// walked within its caller, would stand on the stack twice.
#[inline(never)]
pub fn has_some(s: &Slot, q: &[[u8; HASH_BYTES]]) -> bool
    requires { hash_count_of s.now ≤ most_hashes }
    ensures { result ≡ any (λ x. any (same x) (right_of s.now).hashes) q.now }
{
    let count = usize::from(bits::fields::slot_hashes(s[0]));
    count != 0 && has_one_of(&s[HASHES_AT..GAP_AT], count, q)
}

// Whether the record goes into the list: it is enabled, and has one of the query's hashes or the query has none.
pub fn is_listed(s: &Slot, q: &[[u8; HASH_BYTES]]) -> bool
    requires { hash_count_of s.now ≤ most_hashes }
    ensures { listed_slot q.now (unpack s.now) ≡ (if result then handle_of s.now ∷ [] else []) }
{
    matches!(place_of(s), Place::Enabled) && (q.is_empty() || has_some(s, q))
}
