// The bytes that make a value even (PS3.5 6.2, 9.1).
ghost use Rattle.std.specs.Prelude.{◌≡◌, ◌≤◌, length};
ghost use Rattle.dcm_base.specs.Tables.Transfer as spec;

/// Whether a byte pads a value (PS3.5 6.2).
pub fn is_pad(byte: u8) -> bool
    ensures { result ≡ spec.is_pad byte }
{
    byte == 0 || byte == b' '
}

/// The size of a value without the bytes 00 and 20 at its end (PS3.5 6.2).
pub fn size_without_pads(value: &[u8]) -> usize
    ensures size { result ≡ length (spec.without_pads value.now) }
    ensures within { result ≤ length value.now }
{
    let mut n = value.len();
    while n > 0 && is_pad(value[n - 1]) {
        n -= 1;
    }
    n
}

/// A value without the bytes 00 and 20 at its end.
pub fn without_pads(value: &[u8]) -> &[u8]
    ensures value { result.now ≡ spec.without_pads value.now }
    ensures within { length result.now ≤ length value.now }
{
    let (kept, _) = value.split_at(size_without_pads(value));
    kept
}
