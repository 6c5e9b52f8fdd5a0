// Numbers as bytes, low byte first.
ghost use Rattle.std.specs.Prelude.{◌≡◌, length, take, drop, get_or};
ghost use Rattle.wire.specs.Bytes.{number, low_bytes, blank};

// The number that the first eight bytes say, or all of them where there are fewer.
pub fn read_u64(bytes: &[u8]) -> u64
    ensures { result ≡ number (take 8 bytes.now) }
{
    let mut first = [0; 8];
    let many = bytes.len().min(8);
    first[..many].copy_from_slice(&bytes[..many]);
    u64::from_le_bytes(first)
}

// The byte at a place; 0 past the end.
pub fn byte_at(bytes: &[u8], at: usize) -> u8
    ensures { result ≡ get_or bytes.now at 0 }
{
    bytes.get(at).copied().unwrap_or(0)
}

// The number of the eight bytes at a place, where those past the end are 0.
pub fn u64_at(bytes: &[u8], at: usize) -> u64
    ensures { result ≡ number (take 8 (drop at bytes.now)) }
{
    bytes.get(at..).map_or(0, read_u64)
}

// Fills the bytes, however many, with the low bytes of `v`: `to_le_bytes` gives just eight.
pub fn write_u64(bytes: &mut [u8], v: u64)
    ensures { bytes.new ≡ low_bytes (length bytes.old) v }
{
    let mut rest = v;
    for b in bytes {
        *b = (rest % 256) as u8;
        rest /= 256;
    }
}

// Whether the bytes are all zero.
pub fn is_blank(bytes: &[u8]) -> bool
    ensures { result ≡ blank bytes.now }
{
    bytes.iter().all(|b| *b == 0)
}
