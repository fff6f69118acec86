// Numbers as bytes, the lowest byte first.
#![tactic(auto)]

ghost use Rattle.std.specs.Prelude.{◌≡◌, ◌<◌, ◌^◌};
ghost use Rattle.little_endian.specs.Number.{le16, le32, le64, bytes4, bytes8};

// A byte as a number of 32 bits.
pub fn wide(x: u8) -> u32
    ensures { (result ≡ x) × (result < 256) }
{
    u32::from(x)
}

pub fn le16(low: u8, high: u8) -> u32
    ensures { (result ≡ le16 low high) × (result < 2 ^ 16) }
{
    u32::from(u16::from_le_bytes([low, high]))
}

pub fn le32(b0: u8, b1: u8, b2: u8, b3: u8) -> u32
    ensures { (result ≡ le32 b0 b1 b2 b3) × (result < 2 ^ 32) }
{
    u32::from_le_bytes([b0, b1, b2, b3])
}

pub fn le64(b0: u8, b1: u8, b2: u8, b3: u8, b4: u8, b5: u8, b6: u8, b7: u8) -> u64
    ensures { (result ≡ le64 b0 b1 b2 b3 b4 b5 b6 b7) × (result < 2 ^ 64) }
{
    u64::from_le_bytes([b0, b1, b2, b3, b4, b5, b6, b7])
}

// The bytes of a number of four bytes,
pub fn bytes4(n: u32) -> [u8; 4]
    ensures { result ≡ bytes4 n }
{
    u32::to_le_bytes(n)
}

// and of one of eight.
pub fn bytes8(n: u64) -> [u8; 8]
    ensures { result ≡ bytes8 n }
{
    u64::to_le_bytes(n)
}
