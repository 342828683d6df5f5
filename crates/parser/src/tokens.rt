// The parts of a typed line that hold no formula: spaces, numbers, intervals, words, prefixes. Each reader begins at a place of the text and
// answers the place behind what it read, or the number of a fault and its place.
ghost use Rattle.std.specs.Prelude.{◌≡◌, ◌-◌, true};
ghost use Rattle.grammar.specs.Grammar.{is_digit};
ghost use Rattle.grammar.specs.Images.{sat};
ghost use Rattle.std.specs.Option.{option_map};
ghost use Rattle.table.specs.Operators.{kind_of};
ghost use Rattle.parser.specs.Reads.{number_of};
ghost use Rattle.parser.specs.Code.{IsAt, DigitAt, Skipped, Grown, Numbered, Expected, Bounded, Spanned, Spelt, Windowed, Prefixes, Between, place_of, end_of, value_of, lo_of, hi_of, more_of, item_of};

use crate::Fault;
use crate::tape::Prefix;
use table::Operator;

// The byte at a place is x.
pub(crate) fn is_at(text: &[u8], at: usize, x: u8) -> bool
    ensures { IsAt text.now at x result }
{
    text.get(at) == Some(&x)
}

fn digit_at(text: &[u8], at: usize) -> bool
    ensures { DigitAt text.now at result }
{
    text.get(at).is_some_and(|x| x.is_ascii_digit())
}

// Past the spaces.
pub(crate) fn skip(text: &[u8], at: usize) -> usize
    ensures { Skipped text.now at result }
{
    let mut i = at;
    // The place behind the spaces is the answer.
    while is_at(text, i, b' ') {
        i += 1;
    }
    i
}

// One more digit of a number.
#[tactic(auto, unfolding(grammar::specs::Images::sat))]
fn grow(value: u32, x: u8) -> u32
    requires { is_digit x ≡ true }
    ensures { result ≡ sat value (x - 48) }
{
    let digit = u32::from(x - b'0');
    value.saturating_mul(10).saturating_add(digit).min(1000000)
}

// The digits that follow a number.
fn digits(text: &[u8], at: usize, value: u32) -> (u32, usize)
    ensures { Grown text.now at value result.1 result.0 }
{
    let mut i = at;
    let mut v = value;
    // The place behind the digits is part of the answer.
    while digit_at(text, i) {
        v = grow(v, text[i]);
        i += 1;
    }
    (v, i)
}

pub(crate) fn number(text: &[u8], at: usize) -> Result<(u32, usize), Fault>
    ensures { Numbered text.now at (number_of result) (place_of result) (value_of result) }
{
    if !digit_at(text, at) {
        return Err(Fault::syntax(at));
    }
    let first = text[at] - b'0';
    if first == 0 {
        return Ok((0, at + 1));
    }
    Ok(digits(text, at + 1, u32::from(first)))
}

// Past spaces and the byte x.
pub(crate) fn expect(text: &[u8], at: usize, x: u8) -> Result<usize, Fault>
    ensures { Expected text.now at x (number_of result) (end_of result) }
{
    let i = skip(text, at);
    if !is_at(text, i, x) {
        return Err(Fault::syntax(i));
    }
    Ok(i + 1)
}

// A number over spaces, and the byte x behind it.
pub(crate) fn bound(text: &[u8], at: usize, x: u8) -> Result<(u32, usize), Fault>
    ensures { Bounded text.now at x (number_of result) (place_of result) (value_of result) }
{
    let (value, i) = number(text, skip(text, at))?;
    let end = expect(text, i, x)?;
    Ok((value, end))
}

// The bounds of an interval.
pub(crate) fn interval(text: &[u8], at: usize) -> Result<((u32, u32), usize), Fault>
    ensures { Spanned text.now at (number_of result) (place_of result) (lo_of result) (hi_of result) }
{
    let i = expect(text, at, b'[')?;
    let (lo, j) = bound(text, i, b',')?;
    let (hi, end) = bound(text, j, b']')?;
    Ok(((lo, hi), end))
}

// The letters of w.
pub(crate) fn spell(text: &[u8], at: usize, w: &[u8]) -> Result<usize, Fault>
    ensures { Spelt text.now at w.now (number_of result) (end_of result) }
{
    let mut i = at;
    for &letter in w {
        if !is_at(text, i, letter) {
            return Err(Fault::syntax(i));
        }
        i += 1;
    }
    Ok(i)
}

// F or G, whose letter is read, as a prefix.
fn window(text: &[u8], at: usize, o: Operator) -> Result<(Option<Prefix>, usize), Fault>
    ensures { Windowed text.now at (kind_of o) (number_of result) (place_of result) (more_of result) (item_of result) }
{
    let ((lo, hi), end) = interval(text, at)?;
    Ok((Some(Prefix::new(o, lo, hi)), end))
}

// A prefix of a unary, if there is one.
pub(crate) fn prefix(text: &[u8], at: usize) -> Result<(Option<Prefix>, usize), Fault>
    ensures { Prefixes text.now at (number_of result) (place_of result) (more_of result) (item_of result) }
{
    let i = skip(text, at);
    if is_at(text, i, b'!') {
        return Ok((Some(Prefix::new(Operator::Not, 0, 0)), i + 1));
    }
    if is_at(text, i, b'F') {
        return window(text, i + 1, Operator::Finally);
    }
    if is_at(text, i, b'G') {
        return window(text, i + 1, Operator::Globally);
    }
    Ok((None, i))
}

// U, or R, or neither.
pub(crate) fn between(text: &[u8], at: usize) -> Option<Operator>
    ensures { Between text.now at (option_map kind_of result) }
{
    if is_at(text, at, b'U') {
        return Some(Operator::Until);
    }
    if is_at(text, at, b'R') {
        return Some(Operator::Release);
    }
    None
}
