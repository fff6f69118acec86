// A year's head for the benchmark, which calls it from C: from the printed page, and reckoned.
#![tactic(auto)]

ghost use Rattle.std.specs.Prelude.{◌≡◌};
ghost use Rattle.bench_heads.specs.Heads.{printed, reckoned};

#[unsafe(no_mangle)]
pub extern "C" fn head_from_page(system: u32, year: u32) -> u32
    ensures { result ≡ printed system year }
{
    printed_heads::of_year(system, year).map_or(0, |head| head.0)
}

#[unsafe(no_mangle)]
pub extern "C" fn head_reckoned(system: u32, year: u32) -> u32
    ensures { result ≡ reckoned system year }
{
    match reckoning::reckoned_head(system, year) {
        Ok(head) => head.0,
        Err(_) => 0,
    }
}
