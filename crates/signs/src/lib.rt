// Cuts the text of a rule into signs, one at a time. Any bytes may stand in a text: what begins no sign is a bad one.

#![tactic(auto)]

ghost use Rattle.std.specs.Prelude.{◌≡◌, ℕ, ◌+◌, ◌-◌, ◌*◌, ◌<◌, ◌≤◌, drop, MatchBool};
ghost use Rattle.signs.specs.Signs.{run, value, cap, zero_sign, plain_sign};
ghost use Rattle.signs.specs.First.{Skipped, Takes, First, After, FirstNumber};
ghost use Rattle.signs.specs.Writing.{SignsRight};

use rules::line::Quantifier;

#[derive(Clone, Copy, Debug, PartialEq, Eq, Hash)]
pub enum Sign {
    Open,
    Close,
    OpenSquare,
    CloseSquare,
    Bang,
    Amp,
    Bar,
    // `E` or `A`
    Each(Quantifier),
    Until,
    UntilAtMost,
    UntilAtLeast,
    // a letter by its number: a is 0
    Letter(u8),
    // a number, of which all above LARGEST are told as LARGEST + 1
    Number(u32),
    // a byte that begins no sign, or a 0 before a digit
    Bad,
}

// The largest number of a rule.
pub const LARGEST: u32 = 1_000_000;

fn skip_spaces(text: &[u8]) -> &[u8]
    ensures { Skipped text.now result.now }
{
    let mut text = text;
    while let [b' ', rest @ ..] = text {
        text = rest;
    }
    text
}

// A number with one digit more.
fn with_digit(value: u32, digit: u8) -> u32
    requires small { value ≤ 1000001 }
    requires decimal { (48 ≤ digit) × (digit ≤ 57) }
    ensures { result ≡ cap (value * 10 + (digit - 48)) }
{
    (value * 10 + u32::from(digit - b'0')).min(LARGEST + 1)
}

// The number that the digits at the front write, and what follows them.
fn number(text: &[u8]) -> (u32, &[u8])
    ensures value { result.0 ≡ cap (value 0 text.now) }
    ensures rest { result.1.now ≡ drop (run text.now) text.now }
{
    let mut text = text;
    let mut value = 0;
    while let [digit @ b'0'..=b'9', rest @ ..] = text {
        value = with_digit(value, *digit);
        text = rest;
    }
    (value, text)
}

// The sign that begins with a `U`, and what follows it; `rest` is what follows the `U`.
fn until_sign(rest: &[u8]) -> (Sign, &[u8])
    ensures { Takes 85 rest.now result.0 result.1.now }
{
    match rest {
        [b'<', b'=', rest @ ..] => (Sign::UntilAtMost, rest),
        [b'>', b'=', rest @ ..] => (Sign::UntilAtLeast, rest),
        _ => (Sign::Until, rest),
    }
}

fn digit_first(text: &[u8]) -> bool
    ensures { MatchBool result (0 < run text.now) (run text.now ≡ 0) }
{
    matches!(text, [b'0'..=b'9', ..])
}

// The sign of a `0`, which is bad before a digit.
fn zero_sign(rest: &[u8]) -> Sign
    ensures { result ≡ zero_sign rest.now }
{
    if digit_first(rest) {
        Sign::Bad
    } else {
        Sign::Number(0)
    }
}

// The sign of a byte that is no digit and no `U`.
fn plain_sign(b: u8) -> Sign
    ensures { result ≡ plain_sign b }
{
    match b as char {
        '(' => Sign::Open,
        ')' => Sign::Close,
        '[' => Sign::OpenSquare,
        ']' => Sign::CloseSquare,
        '!' => Sign::Bang,
        '&' => Sign::Amp,
        '|' => Sign::Bar,
        'E' => Sign::Each(Quantifier::Some),
        'A' => Sign::Each(Quantifier::All),
        'a'..='p' => Sign::Letter(b - b'a'),
        _ => Sign::Bad,
    }
}

// The first sign of a text, and what follows it.
pub fn next_sign(text: &[u8]) -> Option<(Sign, &[u8])>
    ensures { First text.now result }
{
    let text = skip_spaces(text);
    let (b, rest) = text.split_first()?;
    Some(match *b as char {
        'U' => until_sign(rest),
        '0' => (zero_sign(rest), rest),
        '1'..='9' => {
            let (n, rest) = number(text);
            (Sign::Number(n), rest)
        }
        _ => (plain_sign(*b), rest),
    })
}

// What follows `sign`, where the text begins with it. (Of numbers it tells nothing.)
pub fn after_sign(text: &[u8], sign: Sign) -> Option<&[u8]>
    ensures { After text.now sign result }
{
    let (first, rest) = next_sign(text)?;
    (first == sign).then_some(rest)
}

// The number that the text begins with, and what follows it.
pub fn number_first(text: &[u8]) -> Option<(u32, &[u8])>
    ensures { FirstNumber text.now result }
{
    match next_sign(text)? {
        (Sign::Number(n), rest) => Some((n, rest)),
        _ => None,
    }
}

// What the promises above call the signs of a text are what it writes.
pub fn signs_are_written()
    ensures { SignsRight }
{}
