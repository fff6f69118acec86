// Records that were refused, told on standard error.
use framing::next;
use process::exit;
use process::streams::Streams;
use reckoning::refusal::Refusal;

// Tells a record by its refusal and its place in the input.
fn tell(streams: &mut Streams, refusal: Refusal, place: u64) {
    let mut told = [0u8; 32];
    let at = text::word(&mut told, 0, b": ");
    let end = text::refused(&mut told, at, refusal.number());
    exit::fail_at(
        streams,
        b"chiselbrow-renew: standard input: record at byte ",
        place,
        &told[..end],
    );
}

// Tells the records that were refused among renewed bytes, of which the first has the given place in the input: they
// are the ones that are still of kind 2.
pub(crate) fn tell_refused(streams: &mut Streams, renewed: &[u8], offset: u64) {
    let mut at = 0;
    while let Some(n) = next(renewed, at) {
        let end = at + n;
        if let Some(refusal) = conversion::left_with(&renewed[at..end]) {
            let place = offset.wrapping_add(at as u64);
            tell(streams, refusal, place);
        }
        at = end;
    }
}
