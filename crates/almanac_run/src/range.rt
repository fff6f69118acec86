// What is asked of each number of a range, written through one buffer.
ghost use Rattle.std.specs.Prelude.{◌+◌, ◌≤◌, length};
ghost use Rattle.text.specs.Wrote.{Wrote};
ghost use Rattle.almanac_run.specs.Pages.{system_page, requested_page, FilledWith};

use arguments::ranges::Range;
use calendar::data::RegisterDay;
use process::streams;
use process::streams::{Failure, Streams, zeros};
use solar_inequality::data::Season;

// What is printed by one system: the page of a year, that of a year's pentads, the line of the pentad in force on a
// register day, or the page of a year's submerged or extinguished days.
#[derive(Clone, Copy)]
pub(crate) enum Page {
    Year,
    Pentads,
    Pentad,
    Submerged,
    Extinguished,
}

// What is printed of each number: a page by a system, two systems compared, or the line of the sun's excess or shortfall
// so many days after a solstice. It is a value and no closure, so that `requested_page` can say what is printed.
#[derive(Clone, Copy)]
pub(crate) enum Request {
    BySystem(Page, u32),
    Compare(u32, u32),
    Sun(Season),
}

// Pages put into a buffer: how many, the number after them, and where the last one ends.
#[derive(Clone, Copy)]
struct Filled {
    pages: u64,
    next: u32,
    end: usize,
}

fn system_page(out: &mut [u8], at: usize, page: Page, system: u32, n: u32) -> usize
    requires { at + 8192 ≤ length out.old }
    ensures { Wrote out.old at (system_page page system n) out.new result }
{
    match page {
        Page::Year => pages::page(out, at, system, n),
        Page::Pentads => pages::pentads_page(out, at, system, n),
        Page::Pentad => pages::pentad_line(out, at, system, RegisterDay(n)),
        Page::Submerged => submerged_extinguished_pages::submerged_page(out, at, system, n),
        Page::Extinguished => submerged_extinguished_pages::extinguished_page(out, at, system, n),
    }
}

// What is asked of a number, put into a buffer that has room for the longest page.
fn requested_page(out: &mut [u8], at: usize, request: Request, n: u32) -> usize
    requires { at + 8192 ≤ length out.old }
    ensures { Wrote out.old at (requested_page request n) out.new result }
{
    match request {
        Request::BySystem(page, system) => system_page(out, at, page, system, n),
        Request::Compare(first, second) => comparison_pages::page(out, at, first, second, n),
        Request::Sun(season) => solar_inequality_lines::line(out, at, season, n),
    }
}

// Puts the pages of up to `count` numbers from the first on into a buffer, while it has room for one more, 8192 bytes.
// Past the largest number that is told it stays at that one, which is refused as those past it would be.
fn fill(out: &mut [u8], request: Request, first: u32, count: u64) -> Filled
    ensures { FilledWith request first count out.old out.new result }
{
    let mut next = first;
    let mut end = 0;
    for pages in 0..count {
        if out.len() - end < 8192 {
            return Filled { pages, next, end };
        }
        end = requested_page(out, end, request, next);
        next = next.saturating_add(1);
    }
    Filled {
        pages: count,
        next,
        end,
    }
}

// Buffer after buffer. A write that fails ends it.
#[tactic(auto, using(crate::proofs::Filling::fewer))]
fn write_pages(
    streams: &mut Streams,
    out: &mut [u8],
    request: Request,
    range: Range,
) -> Result<(), Failure>
    requires { 8192 ≤ length out.old }
{
    let mut next = range.first;
    let mut left = range.count;
    // No `for`: it goes on by what a buffer took.
    while 0 < left {
        let filled = fill(out, request, next, left);
        streams::write(streams, &out[..filled.end])?;
        next = filled.next;
        left -= filled.pages;
    }
    Ok(())
}

// What is asked of each number of a range. Not inlined, so that its buffer is on the stack after the arguments were read.
#[inline(never)]
pub(crate) fn pages(streams: &mut Streams, request: Request, range: Range) -> Result<(), Failure> {
    let mut buffer = zeros::<65536>();
    write_pages(streams, &mut buffer, request, range)
}
