// A record at the front of a lent output.
ghost use Rattle.std.specs.Prelude.{◌≡◌, leb, length};
ghost use Rattle.citation.specs.Output.{record_into};

// The bytes of a record that is written.
pub type Record = [u8; 10];

// Writes a record, and says whether there was room for it. In this order no jump is taken where there is.
pub fn put(output: &mut [u8], bytes: Record) -> bool
    ensures value { result ≡ leb 10 (length output.old) }
    ensures output_after { output.new ≡ record_into bytes output.old }
{
    if 10 <= output.len() {
        output[..10].copy_from_slice(&bytes);
        return true;
    }
    false
}
