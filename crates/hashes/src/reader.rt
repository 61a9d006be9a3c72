// A small reader that holds a slot's hash bytes and a position: two thin functions over it, and above them one with plain
// parameters, which serves every caller.
ghost use Rattle.std.specs.Prelude.{◌≡◌};
ghost use Rattle.hashes.specs.Readers.{hash_at, HashStands, reader_at, hash_read, Reads};

use profile::sizes::HASH_BYTES;

#[derive(Drop)]
struct HashReader<'a> {
    bytes: &'a [u8],
    at: usize, // which of the hashes, from 0
}

// The hash at a position of some hash bytes, by value.
fn nth_hash(bytes: &[u8], at: usize) -> [u8; HASH_BYTES]
    requires { HashStands at bytes.now }
    ensures { result ≡ hash_at at bytes.now }
{
    octets::arrays::array_at(bytes, HASH_BYTES * at)
}

impl<'a> HashReader<'a> {
    // A reader of some hash bytes, at a position.
    fn new(bytes: &'a [u8], at: usize) -> HashReader<'a>
        ensures { result ≡ reader_at bytes.entry at }
    {
        HashReader { bytes, at }
    }

    // The hash at the reader's position.
    fn read(self) -> [u8; HASH_BYTES]
        requires { Reads self }
        ensures { result ≡ hash_read self.entry }
    {
        nth_hash(self.bytes, self.at)
    }
}

// Hash i of a slot's hash bytes, counted from 0, through a reader of them.
pub(crate) fn hash_of(bytes: &[u8], i: usize) -> [u8; HASH_BYTES]
    requires { HashStands i bytes.now }
    ensures { result ≡ hash_at i bytes.now }
{
    HashReader::new(bytes, i).read()
}
