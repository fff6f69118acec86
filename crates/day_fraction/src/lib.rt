// A time of day as a fraction of the day: from a count of parts, and back to one.
#![tactic(auto)]

ghost use Rattle.std.specs.Prelude.{◌≡◌, ◌<◌, T};
ghost use Rattle.std.specs.Float.{binary64};
ghost use Rattle.std.specs.Float.Ieee.{div, le};
ghost use Rattle.day_fraction.specs.Fraction.{fraction_of};
ghost use Rattle.day_fraction.specs.Settling.{is_fraction, count_of, settled_of};

// So many of the parts in a day, as a fraction of it: one quotient, rounded once. Of a day of no parts it is infinite, or
// not a number.
pub fn fraction(in_day: u16, parts: u32) -> f64
    ensures { result ≡ fraction_of in_day parts }
{
    parts as f64 / in_day as f64
}

// Whether a quotient is not above f.
fn not_above(parts: f64, in_day: f64, f: f64) -> bool
    ensures { result ≡ le (div binary64 parts in_day) f }
{
    parts / in_day <= f
}

// 2^52, and its bit pattern. From there up to 2^53 the floats are the whole numbers, and their patterns count on by one.
const WHOLE: f64 = 4_503_599_627_370_496.0;

const WHOLE_PATTERN: u64 = 4_841_369_599_423_283_200;

// The largest count whose fraction is not above f is the one that f is cut down to, or the next; and so is the guess, since
// rounding takes neither the product nor the sum past a whole number. So it is the count before the guess, and one more
// for each that passes of the guess and the next. The guess is had as a float, too, by a difference that is exact.
fn count(in_day: u16, f: f64) -> u16
    requires { (0 < in_day) × T (is_fraction f) }
    ensures { result ≡ count_of in_day f }
{
    let all = in_day as f64;
    let shifted = f * all + WHOLE;
    let guess = (f64::to_bits(shifted) - WHOLE_PATTERN) as u32;
    let parts = shifted - WHOLE;
    let at_guess = u32::from(not_above(parts, all, f));
    let after_guess = u32::from(not_above(parts + 1.0, all, f));
    (guess + at_guess + after_guess - 1) as u16
}

// The bit pattern of negative zero. All above it are of floats below zero, or of none.
const NEGATIVE_ZERO: u64 = 9_223_372_036_854_775_808;

// Whether f is a fraction of a day. That it is not below zero is told by its pattern: a program may have asked the
// processor to take the smallest floats for zero in comparisons.
fn is_fraction(f: f64) -> bool
    ensures { result ≡ is_fraction f }
{
    f < 1.0 && f64::to_bits(f) <= NEGATIVE_ZERO
}

// The count that a fraction of the day settles to; none where it is no fraction of a day.
#[tactic(auto, unfolding(crate::specs::Settling::settled_of))]
pub fn settle(in_day: u16, f: f64) -> Option<u16>
    ensures { result ≡ settled_of in_day f }
{
    if 0 < in_day && is_fraction(f) {
        Some(count(in_day, f))
    } else {
        None
    }
}
