// A decimal number.
ghost use Rattle.std.specs.Prelude.{◌≡◌};
ghost use Rattle.arguments.specs.Number.{is_digit, argument_of};

// Whether a byte is a digit: a function, so that its clause holds the test.
fn is_digit(byte: u8) -> bool
    ensures { result ≡ is_digit byte }
{
    byte.is_ascii_digit()
}

// The number that a text gives by its digits, read left to right. One that is too large becomes the largest, which is
// refused as it would be.
pub fn read(text: &[u8]) -> Option<u32>
    ensures { result ≡ argument_of text.now }
{
    if text.is_empty() {
        return None;
    }
    let mut n: u32 = 0;
    for byte in text {
        if !is_digit(*byte) {
            return None;
        }
        n = n.saturating_mul(10).saturating_add((*byte - b'0') as u32);
    }
    Some(n)
}
