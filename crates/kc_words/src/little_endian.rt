//! Little-endian numbers (Intel SDM vol. 1, "Bit and Byte Order").

ghost use Rattle.std.specs.Prelude.{◌≡◌};
ghost use Rattle.kc_words.specs.LittleEndian.{little_endian};

/// The number whose bytes are `bytes`, the least significant first.
pub fn le64(bytes: &[u8; 8]) -> u64
    ensures value { result ≡ little_endian bytes.now }
{
    u64::from_le_bytes(*bytes)
}
