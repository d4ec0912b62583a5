//! Words of bytes.
ghost use Rattle.std.specs.Prelude.{◌≡◌, ◌+◌, ◌≤◌, length, take, drop};
ghost use Rattle.image.specs.Memory.{little_endian};

/// The little-endian word that begins at an index (RISC-V Unprivileged ISA 20191213, section 1.4).
#[inline]
pub fn word_at_index(bytes: &[u8], index: usize) -> u32
    requires { index + 4 ≤ length bytes.now }
    ensures { result ≡ little_endian (take 4 (drop index bytes.now)) }
{
    u32::from_le_bytes(bytes_at_index(bytes, index))
}

/// The four bytes that begin at an index.
#[inline]
pub(crate) fn bytes_at_index(bytes: &[u8], index: usize) -> [u8; 4]
    requires { index + 4 ≤ length bytes.now }
    ensures { result ≡ take 4 (drop index bytes.now) }
{
    [
        bytes[index],
        bytes[index + 1],
        bytes[index + 2],
        bytes[index + 3],
    ]
}

/// The little-endian halfword that begins at an index.
#[inline]
pub(crate) fn halfword_at_index(bytes: &[u8], index: usize) -> u16
    requires { index + 2 ≤ length bytes.now }
    ensures { result ≡ little_endian (take 2 (drop index bytes.now)) }
{
    u16::from_le_bytes([bytes[index], bytes[index + 1]])
}
