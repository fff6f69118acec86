// Records of the retired kind 2 renewed where they stand in a buffer; all other bytes stay.
#![tactic(auto)]

ghost use Rattle.std.specs.Prelude.{◌≡◌};
ghost use Rattle.renewal.specs.Renewal.{renewed_of, renewal_of};

use framing::next;

// How many bytes the records have, and whether one of kind 2 was refused, and left as it was.
#[derive(Clone, Copy)]
pub struct Renewal {
    pub read: usize,
    pub refused: bool,
}

// Renews each whole record of a buffer.
pub fn renew(buffer: &mut [u8]) -> Renewal
    ensures value { result ≡ renewal_of buffer.old }
    ensures buffer_after { buffer.new ≡ renewed_of buffer.old }
{
    let mut at = 0;
    let mut refused = false;
    while let Some(n) = next(buffer, at) {
        let end = at + n;
        refused |= conversion::renew(&mut buffer[at..end]).is_err();
        at = end;
    }
    Renewal { read: at, refused }
}
