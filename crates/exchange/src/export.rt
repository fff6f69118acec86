// The export of a row.
ghost use Rattle.std.specs.Prelude.{◌≡◌, length};
ghost use Rattle.exchange.specs.Export.{export_told, export_answer, exported_into};

use crate::row;
use crate::systems::parts_in_day;
use calendar::data::RegisterDay;
use day_fraction::fraction;
use reckoning::refusal::Refusal;

// Whether small units were cut off.
fn export(system: u64, day: u32, parts: u64, units: u64, output: &mut [u8]) -> Result<bool, Refusal>
    ensures value { export_told result ≡ export_answer system parts units (length output.old) }
    ensures output_after { output.new ≡ exported_into system day parts output.old }
{
    let in_day = parts_in_day(system).ok_or(Refusal::System)?;
    if in_day as u64 <= parts {
        return Err(Refusal::Time);
    }
    let Some(written) = output.first_chunk_mut::<{ row::SIZE }>() else {
        return Err(Refusal::Output);
    };
    *written = row::of_fraction(RegisterDay(day), fraction(in_day, parts as u32));
    Ok(units != 0)
}

// Exports a register day with a time in whole parts, of which small units are cut off. The output's first thirteen bytes
// become the row, and the rest is left; the answer is 1 where small units were cut off, and otherwise 0. Refused, it is
// 2^32 times the refusal number, and no byte changes.
pub fn chiselbrow_export(system: u64, day: u32, parts: u64, units: u64, output: &mut [u8]) -> u64
    ensures value { result ≡ export_answer system parts units (length output.old) }
    ensures output_after { output.new ≡ exported_into system day parts output.old }
{
    match export(system, day, parts, units, output) {
        Ok(cut) => cut as u64,
        Err(refusal) => refusal.in_answer(),
    }
}
