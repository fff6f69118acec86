// The exchange for C: include/chiselbrow.h tells how it is called.
#![tactic(auto)]

ghost use Rattle.std.specs.Prelude.{◌≡◌, length};
ghost use Rattle.exchange.specs.Export.{export_answer, exported_into};
ghost use Rattle.exchange.specs.Import.{import_of, import_answer};

use exchange::{export, import};

#[unsafe(no_mangle)]
pub extern "C" fn chiselbrow_export(
    system: u64,
    day: u32,
    parts: u64,
    units: u64,
    output: &mut [u8],
) -> u64
    ensures value { result ≡ export_answer system parts units (length output.old) }
    ensures output_after { output.new ≡ exported_into system day parts output.old }
{
    export::chiselbrow_export(system, day, parts, units, output)
}

#[unsafe(no_mangle)]
pub extern "C" fn chiselbrow_import(system: u64, row: &[u8]) -> u64
    ensures { result ≡ import_answer (import_of system row.now) }
{
    import::chiselbrow_import(system, row)
}
