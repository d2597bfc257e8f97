// Reads the text of a rule into its lines, or says why it is none. Rests on the signs of a text (`signs`) and on the
// lines of a rule (`rules`).

#![tactic(auto)]

ghost use Rattle.std.specs.Prelude.{◌≡◌, Some};
ghost use Rattle.reader.specs.Reads.{Ends, DraftOf};
ghost use Rattle.reader.specs.Answer.{fault_number, fault_text, Answers, OneReading, OneAnswer};

mod draft;
mod parts;

use crate::draft::Draft;
use crate::parts::Reader;
use rules::rule::{MOST_LINES, Rule};
use signs::{LARGEST, next_sign};
use std::error::Error;
use std::fmt;

// The most bytes of a text.
pub const LONGEST: usize = 512;

// Why a text is refused, with the number of the refusal.
#[derive(Clone, Copy, Debug, PartialEq, Eq, Hash)]
pub enum ReadFault {
    // more than LONGEST bytes
    TooLong = 8,
    NotARule = 9,
    // a number above the largest
    NumberTooLarge = 10,
    TooManyLines = 11,
}

impl ReadFault {
    // The number of the refusal.
    pub fn number(self) -> u8
        ensures { result ≡ fault_number self }
    {
        self as u8
    }
}

impl fmt::Display for ReadFault {
    ghost output = { λ e. Some (fault_text e) };

    fn fmt<W: fmt::Write>(&self, f: &mut fmt::Formatter<W>) -> fmt::Result {
        match self {
            ReadFault::TooLong => write!(f, "the text has more than {LONGEST} bytes"),
            ReadFault::NotARule => write!(f, "the text is no rule"),
            ReadFault::NumberTooLarge => write!(f, "a number is above {LARGEST}"),
            ReadFault::TooManyLines => write!(f, "the rule has more than {MOST_LINES} lines"),
        }
    }
}

impl Error for ReadFault {}

// No sign is left.
fn ends(text: &[u8]) -> bool
    ensures { Ends text.now result }
{
    next_sign(text).is_none()
}

// The lines of a text that is a rule up to its end.
fn draft_of(text: &[u8]) -> Option<Draft>
    ensures { DraftOf text.now result }
{
    let mut reader = Reader {
        rest: text,
        draft: Draft::new(),
    };
    reader.read_rule()?;
    ends(reader.rest).then_some(reader.draft)
}

// Reads a rule, or says why the text is refused: the first fault that fits, in the order of their numbers.
pub fn read(text: &[u8]) -> Result<Rule, ReadFault>
    ensures { Answers text.now result }
{
    if text.len() > LONGEST {
        return Err(ReadFault::TooLong);
    }
    let Draft {
        lines,
        count,
        large,
    } = draft_of(text).ok_or(ReadFault::NotARule)?;
    if large {
        return Err(ReadFault::NumberTooLarge);
    }
    if count > MOST_LINES {
        return Err(ReadFault::TooManyLines);
    }
    Ok(Rule { lines, count })
}

// A text has at most one reading.
pub fn one_reading()
    ensures { OneReading }
{}

// A text has one answer: what `read` promises leaves no choice.
pub fn one_answer()
    ensures { OneAnswer }
{}
