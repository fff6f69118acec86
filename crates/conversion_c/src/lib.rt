// The conversion for C: include/chiselbrow.h tells how it is called.
#![tactic(auto)]

ghost use Rattle.std.specs.Prelude.{◌≡◌, length};
ghost use Rattle.conversion.specs.Conversion.{conversion_answer, converted_into};

#[unsafe(no_mangle)]
pub extern "C" fn chiselbrow_convert(input: &[u8], output: &mut [u8]) -> u64
    ensures value { result ≡ conversion_answer input.now (length output.old) }
    ensures output_after { output.new ≡ converted_into input.now output.old }
{
    conversion::chiselbrow_convert(input, output)
}
