//! Parts of bytes.

ghost use Rattle.std.specs.Prelude.{◌≡◌, ◌≤◌, length, slice_index, take, drop};

/// The byte at `k`, or 0 past the end.
pub(crate) fn byte_at(bytes: &[u8], k: usize) -> u8
    ensures { result ≡ slice_index bytes.now k }
{
    match bytes.get(k) {
        Some(b) => *b,
        None => 0,
    }
}

/// The bytes behind the first `n`.
pub(crate) fn behind(bytes: &[u8], n: usize) -> &[u8]
    requires { n ≤ length bytes.now }
    ensures { result.now ≡ drop n bytes.now }
{
    &bytes[n..]
}

/// The first `n` bytes, or all where there are fewer.
pub(crate) fn first(bytes: &[u8], n: usize) -> &[u8]
    ensures { result.now ≡ take n bytes.now }
{
    if n <= bytes.len() { &bytes[..n] } else { bytes }
}
