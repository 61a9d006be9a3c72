// Bytes compared where they stand, without a copy, up to the first byte that differs.
ghost use Rattle.std.specs.Prelude.{◌≡◌, ◌+◌, ◌≤◌, length};
ghost use Rattle.profile.specs.Bytes.{part, same};

// Whether the whole of `a` stands in `s` at an offset. The last byte is compared first, then the others in their order: random bytes
// differ there as soon as anywhere, and bytes that were counted up differ there before all. The offset is that of a field, which
// one slice can stand for, but not before its length is seen to fit.
pub fn same_from(a: &[u8], s: &[u8], at: usize) -> bool
    requires { at + length a.now ≤ length s.now }
    ensures { result ≡ same a.now (part at (length a.now) s.now) }
{
    let Some((last, others)) = a.split_last() else {
        return true;
    };
    let end = at + others.len();
    *last == s[end] && others.iter().zip(&s[at..end]).all(|(x, y)| *x == *y)
}
