// Records one after another in a buffer: where a whole one stands, and what is left after them.
#![tactic(auto)]

ghost use Rattle.std.specs.Prelude.{◌≡◌, not, ◌||◌, ◌+◌, ◌<◌, length, drop};
ghost use Rattle.citation.specs.Record.{length_field};
ghost use Rattle.framing.specs.Framing.{misframed, next_of};
ghost use Rattle.framing.specs.Buffer.{at_front};

use little_endian::le16;
use reckoning::refusal::outside;

// The length field of the record at a place.
fn length_at(s: &[u8], at: usize) -> u32
    requires { at + 1 < length s.now }
    ensures { result ≡ length_field (drop at s.now) }
{
    le16(s[at], s[at + 1])
}

// The input starts with a length field that no record has.
fn is_misframed(s: &[u8]) -> bool
    ensures { result ≡ misframed s.now }
{
    2 <= s.len() && outside(4, 64, length_at(s, 0))
}

// The length of the record at a place, where a whole one is there.
pub fn next(s: &[u8], at: usize) -> Option<usize>
    ensures { result ≡ next_of s.now at }
{
    if s.len() < 2 || s.len() - 2 < at {
        return None;
    }
    let n = length_at(s, at);
    if outside(4, 64, n) || s.len() - at < n as usize {
        return None;
    }
    Some(n as usize)
}

// Whether a run goes on after these bytes, which are no whole record.
pub fn goes_on(ended: bool, rest: &[u8]) -> bool
    ensures { result ≡ not (ended || misframed rest.now) }
{
    !(ended || is_misframed(rest))
}

// Moves the bytes from a place on to the front.
pub fn keep(buffer: &mut [u8], from: usize)
    ensures { buffer.new ≡ at_front (drop from buffer.old) buffer.old }
{
    if from < buffer.len() {
        buffer.copy_within(from.., 0);
    }
}
