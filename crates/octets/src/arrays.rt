// Handles, keys and hashes read from a frame or a slot as arrays by value.
ghost use Rattle.std.specs.Prelude.{◌≡◌, ◌++◌, ◌+◌, ◌-◌, ◌*◌, ◌≤◌, length, drop, replicate};
ghost use Rattle.profile.specs.Bytes.{part, pieces, zeros};
ghost use Rattle.profile.specs.Sizes.{hash_size, most_hashes};

use profile::sizes::{HASH_BYTES, MOST_HASHES};

// A handle, a key or a hash, as an array by value: its length is that of the array that is asked for.
pub fn array_at<const N: usize>(s: &[u8], at: usize) -> [u8; N]
    requires { at + N ≤ length s.now }
    ensures { result ≡ part at N s.now }
{
    let mut a = [0; N];
    a.copy_from_slice(&s[at..at + N]);
    a
}

// The hashes of a list query, as an array of arrays: the first n are the query's, in its order, and the rest are all zero.
pub fn hashes_at(s: &[u8], at: usize, n: usize) -> [[u8; HASH_BYTES]; MOST_HASHES]
    requires { (n ≤ most_hashes) × (at + hash_size * n ≤ length s.now) }
    ensures { result ≡ pieces hash_size n (drop at s.now) ++ replicate (most_hashes - n) (zeros hash_size) }
{
    let mut q = [[0; HASH_BYTES]; MOST_HASHES];
    for i in 0..n {
        q[i] = array_at(s, at + HASH_BYTES * i);
    }
    q
}
