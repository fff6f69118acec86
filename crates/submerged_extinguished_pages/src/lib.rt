// Pages for people: the submerged days of a year's qi, and the extinguished days of its new moons.
//
// Each page, or the line of its refusal, is put into an output where 1024 bytes follow; where fewer do, the output and
// the position stay as they are.
#![tactic(auto)]

ghost use Rattle.text.specs.Put.{Put};
ghost use Rattle.submerged_extinguished_pages.specs.DistancePages.{submerged_page, extinguished_page};

mod line;
mod whole;

// The page of a year's submerged days.
pub fn submerged_page(out: &mut [u8], at: usize, system: u32, year: u32) -> usize
    ensures { Put out.old at 1024 (submerged_page system year) out.new result }
{
    if text::is_short(out.len(), at, 1024) {
        return at;
    }
    whole::submerged(out, at, system, year)
}

// The page of a year's extinguished days.
pub fn extinguished_page(out: &mut [u8], at: usize, system: u32, year: u32) -> usize
    ensures { Put out.old at 1024 (extinguished_page system year) out.new result }
{
    if text::is_short(out.len(), at, 1024) {
        return at;
    }
    whole::extinguished(out, at, system, year)
}
