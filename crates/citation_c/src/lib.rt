// The storing step for C: include/chiselbrow.h tells how it is called.
#![tactic(auto)]

ghost use Rattle.std.specs.Prelude.{◌≡◌, length};
ghost use Rattle.citation.specs.Store.{answer_of, stored_into};

use citation::store;

#[unsafe(no_mangle)]
pub extern "C" fn chiselbrow_store(input: &[u8], output: &mut [u8]) -> u64
    ensures value { result ≡ answer_of input.now (length output.old) }
    ensures output_after { output.new ≡ stored_into input.now output.old }
{
    store::chiselbrow_store(input, output)
}
