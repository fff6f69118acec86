// The page of a comparison for people: what is compared, and each place where the two systems differ.
#![tactic(auto)]

ghost use Rattle.text.specs.Put.{Put};
ghost use Rattle.comparison_pages.specs.ComparisonPage.{comparison_page};

mod place;
mod whole;

// The page of a comparison, or the line of its refusal, put into an output where 1024 bytes follow; where fewer do, the
// output and the position stay as they are.
pub fn page(out: &mut [u8], at: usize, first: u32, second: u32, year: u32) -> usize
    ensures { Put out.old at 1024 (comparison_page first second year) out.new result }
{
    if text::is_short(out.len(), at, 1024) {
        return at;
    }
    whole::put(out, at, first, second, year)
}
