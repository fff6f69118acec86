// The run of the program almanac: `almanac year SYSTEM YEAR [LAST]`, `almanac pentads SYSTEM YEAR [LAST]`,
// `almanac pentad SYSTEM DAY [LAST]`, `almanac submerged SYSTEM YEAR [LAST]`, `almanac extinguished SYSTEM YEAR [LAST]`,
// `almanac compare FIRST SECOND YEAR [LAST]` and `almanac sun winter|summer FIRST [LAST]`.
#![tactic(auto)]

ghost use Rattle.process.specs.Exit.{Ended};

use arguments::ranges::Range;
use arguments::{number, ranges};
use process::command_line::{Program, reply, word, word_count};
use process::exit;
use process::exit::Status;
use process::streams::{Streams, zeros};
use range::{Page, Request};
use solar_inequality::data::Season;
use std::env::Env;

mod range;

const NAME: &[u8] = b"almanac";

const USAGE: &[u8] =
    b"usage: almanac year SYSTEM YEAR [LAST] | almanac pentads SYSTEM YEAR [LAST] | almanac pentad SYSTEM DAY [LAST] | almanac submerged SYSTEM YEAR [LAST] | almanac extinguished SYSTEM YEAR [LAST] | almanac compare FIRST SECOND YEAR [LAST] (see almanac --help)\n";

const HELP: &[u8] = b"almanac year SYSTEM YEAR [LAST]\n\
    almanac pentads SYSTEM YEAR [LAST]\n\
    almanac pentad SYSTEM DAY [LAST]\n\
    almanac submerged SYSTEM YEAR [LAST]\n\
    almanac extinguished SYSTEM YEAR [LAST]\n\
    almanac compare FIRST SECOND YEAR [LAST]\n\
    almanac --help | --version\n\
    \n\
    year prints the page of YEAR, or of each year from YEAR to LAST, by the calendar\n\
    with the number SYSTEM: 1 is Guantian, 2 is Jiyuan, 3 is Jingchu. A year begins\n\
    with month 11, late in the common year before it.\n\
    pentads prints the 72 pentads of YEAR, or of each year from YEAR to LAST: the\n\
    steps of some five days that divide the year from its winter solstice on.\n\
    pentad prints the pentad in force at the end of the register day DAY, a Julian\n\
    Day Number, or of each day from DAY to LAST, with its year, which runs from\n\
    solstice to solstice.\n\
    submerged prints the day of each qi of YEAR, or of each year from YEAR to LAST,\n\
    and how many days after it the submerged day of the qi lies, or - for none.\n\
    extinguished prints the same of the new moon of each month and its extinguished\n\
    day. Both are for Guantian and Jiyuan only.\n\
    compare prints where the months of YEAR, or of each year from YEAR to LAST,\n\
    differ between the calendars with the numbers FIRST and SECOND.\n\
    In place of a page or line stands `refused 4` if there is no such calendar, or\n\
    not for this request, `refused 5` if the year is outside 1 to 3000, and\n\
    `refused 7` if the day is outside these years as counted from solstice to\n\
    solstice: 1721414 to 2817144, and for Jingchu 1721416 to 2817156.\n\
    The manual page almanac(1) tells the lines and the exit status.\n";

// Argument i as a number. A missing one reads as an empty text, which is none. No argument on Linux is longer than the
// array. Not inlined, for the stack's sake, as `range_at`.
#[inline(never)]
fn number_at<R: Env>(rt: &R, i: usize) -> Option<u32> {
    let mut text = zeros::<131072>();
    number::read(word(rt, i, &mut text))
}

// The numbers from argument i to the last of `count` words, which is argument i again where LAST is left out. Not inlined,
// so that its arrays are on the stack only while it runs.
#[inline(never)]
fn range_at<R: Env>(rt: &R, i: usize, count: usize) -> Option<Range> {
    if count <= i {
        return None;
    }
    if 2 < count - i {
        return None;
    }
    let mut first = zeros::<131072>();
    let mut last = zeros::<131072>();
    ranges::read(word(rt, i, &mut first), word(rt, count - 1, &mut last))
}

fn by_system<R: Env>(rt: &R, page: Page) -> Option<(Request, usize)> {
    let system = number_at(rt, 2)?;
    Some((Request::BySystem(page, system), 3))
}

fn comparison<R: Env>(rt: &R) -> Option<(Request, usize)> {
    let first = number_at(rt, 2)?;
    let second = number_at(rt, 3)?;
    Some((Request::Compare(first, second), 4))
}

fn sun<R: Env>(rt: &R) -> Option<(Request, usize)> {
    let mut season = zeros::<4096>();
    match word(rt, 2, &mut season) {
        b"winter" => Some((Request::Sun(Season::Winter), 3)),
        b"summer" => Some((Request::Sun(Season::Summer), 3)),
        _ => None,
    }
}

// What is asked of each number, and which argument is the first number.
fn request<R: Env>(rt: &R) -> Option<(Request, usize)> {
    let mut verb = zeros::<4096>();
    match word(rt, 1, &mut verb) {
        b"year" => by_system(rt, Page::Year),
        b"pentads" => by_system(rt, Page::Pentads),
        b"pentad" => by_system(rt, Page::Pentad),
        b"submerged" => by_system(rt, Page::Submerged),
        b"extinguished" => by_system(rt, Page::Extinguished),
        b"compare" => comparison(rt),
        b"sun" => sun(rt),
        _ => None,
    }
}

// What is asked of which numbers. All arguments are read before anything is written.
fn asked<R: Env>(rt: &R, count: usize) -> Option<(Request, Range)> {
    let (request, i) = request(rt)?;
    let range = range_at(rt, i, count)?;
    Some((request, range))
}

// Does what the arguments ask, and gives the exit status.
pub fn almanac_run<R: Env>(rt: &R, streams: &mut Streams, version: &[u8]) -> Status
    ensures { Ended result }
{
    let count = word_count(rt);
    // A lone argument is an option, or a misuse.
    if count == 2 {
        let program = Program {
            name: NAME,
            version,
            help: HELP,
            usage: USAGE,
        };
        if let Some(status) = reply(rt, streams, &program) {
            return status;
        }
    }
    let Some((request, range)) = asked(rt, count) else {
        return exit::misuse(streams, USAGE);
    };
    let pages = range::pages(streams, request, range);
    exit::written(streams, NAME, pages)
}
