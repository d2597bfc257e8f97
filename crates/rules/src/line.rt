// The lines of a rule: each letter, `1`, `!`, `&`, `|`, `E` and `A` is one, numbered from 0, left part, right part,
// then the line itself, so that a line names its parts by numbers below its own.
ghost use Rattle.std.specs.Prelude.{Some};
ghost use Rattle.rules.specs.Notation.{quantifier_text, bound_text, line_text};

use std::fmt;

// Some run from the stage (`E`), or every run (`A`).
#[derive(Clone, Copy, Debug, PartialEq, Eq, Hash)]
pub enum Quantifier {
    Some,
    All,
}

impl fmt::Display for Quantifier {
    ghost output = { λ q. Some (quantifier_text q) };

    fn fmt<W: fmt::Write>(&self, f: &mut fmt::Formatter<W>) -> fmt::Result {
        match self {
            Quantifier::Some => write!(f, "E"),
            Quantifier::All => write!(f, "A"),
        }
    }
}

// A bound on the minutes: `U<=` or `U>=`.
#[derive(Clone, Copy, Debug, PartialEq, Eq, Hash)]
pub enum Bound {
    AtMost(u32),
    AtLeast(u32),
}

impl fmt::Display for Bound {
    ghost output = { λ b. Some (bound_text b) };

    fn fmt<W: fmt::Write>(&self, f: &mut fmt::Formatter<W>) -> fmt::Result {
        match self {
            Bound::AtMost(n) => write!(f, "U<={n}"),
            Bound::AtLeast(n) => write!(f, "U>={n}"),
        }
    }
}

#[derive(Clone, Copy, Debug, PartialEq, Eq, Hash)]
pub enum Line {
    One,
    // a letter by its number: a is 0
    Letter(u8),
    Not(usize),
    And(usize, usize),
    Or(usize, usize),
    Until {
        quantifier: Quantifier,
        left: usize,
        bound: Bound,
        right: usize,
    },
}

impl fmt::Display for Line {
    ghost output = { λ l. Some (line_text l) };

    fn fmt<W: fmt::Write>(&self, f: &mut fmt::Formatter<W>) -> fmt::Result {
        match self {
            Line::One => write!(f, "1"),
            Line::Letter(k) => {
                let letter = char::from(b'a'.wrapping_add(*k));
                write!(f, "{letter}")
            }
            Line::Not(part) => write!(f, "!{part}"),
            Line::And(left, right) => write!(f, "{left}&{right}"),
            Line::Or(left, right) => write!(f, "{left}|{right}"),
            Line::Until {
                quantifier,
                left,
                bound,
                right,
            } => write!(f, "{quantifier}[{left} {bound} {right}]"),
        }
    }
}
