// One turn of the run, between a read and a write: a function on the buffer.
ghost use Rattle.std.specs.Prelude.{◌≡◌, if◌then◌else◌};
ghost use Rattle.renew_run.specs.Turn.{Turned};

use framing::goes_on;

// How many bytes the records have and how many are to be written, whether the run goes on, and whether a record was
// refused.
#[derive(Clone, Copy)]
pub(crate) struct Turn {
    pub read: usize,
    pub written: usize,
    pub more: bool,
    pub refused: bool,
}

// The records are written, and where the run stops what is left too.
fn to_write(more: bool, read: usize, filled: usize) -> usize
    ensures { result ≡ (if more then read else filled) }
{
    if more {
        return read;
    }
    filled
}

// Renews the whole records of a buffer. What is to be written stands at its front.
pub(crate) fn renew(buffer: &mut [u8], ended: bool) -> Turn
    ensures { Turned ended buffer.old buffer.new result }
{
    let r = renewal::renew(buffer);
    let read = r.read;
    let more = goes_on(ended, &buffer[read..]);
    Turn {
        read,
        written: to_write(more, read, buffer.len()),
        more,
        refused: r.refused,
    }
}
