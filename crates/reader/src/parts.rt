// The readers of a rule, a term and an item, which call each other in a cycle; the bytes that are left fall.
ghost use Rattle.reader.specs.Reads.{Limits, ReadsRule, ReadsTerm, ReadsItem, ReadsBody};

use crate::draft::Draft;
use rules::line::{Bound, Line, Quantifier};
use signs::{Sign, after_sign, next_sign, number_first};

// A text while it is read: what is left of it, and the lines so far.
#[derive(Drop)]
pub struct Reader<'a> {
    pub rest: &'a [u8],
    pub draft: Draft,
}

fn read_bound(text: &[u8]) -> Option<(Bound, &[u8])>
    ensures { Limits text.now result }
{
    match next_sign(text)? {
        (Sign::Until, rest) => Some((Bound::AtLeast(0), rest)),
        (Sign::UntilAtMost, rest) => {
            let (n, rest) = number_first(rest)?;
            Some((Bound::AtMost(n), rest))
        }
        (Sign::UntilAtLeast, rest) => {
            let (n, rest) = number_first(rest)?;
            Some((Bound::AtLeast(n), rest))
        }
        _ => None,
    }
}

// Each gives the number of the last line of what it reads. The loops of `read_term` and `read_rule` stay two: one for
// both would take the reader of its parts as a closure that calls back into this cycle, and be no plainer.
impl Reader<'_> {
    #[cycle(grammar)]
    fn read_item(&mut self) -> Option<usize>
        ensures { ReadsItem self.old self.new result }
    {
        let (first, rest) = next_sign(self.rest)?;
        self.rest = rest;
        match first {
            Sign::Number(1) => Some(self.draft.push(Line::One)),
            Sign::Number(_) => None,
            Sign::Letter(k) => Some(self.draft.push(Line::Letter(k))),
            Sign::Bang => {
                let part = self.read_item()?;
                Some(self.draft.push(Line::Not(part)))
            }
            Sign::Open => {
                let inner = self.read_rule()?;
                self.rest = after_sign(self.rest, Sign::Close)?;
                Some(inner)
            }
            Sign::Each(quantifier) => self.read_until(quantifier),
            _ => None,
        }
    }

    // What stands after `E` or `A`.
    #[cycle(grammar)]
    fn read_until(&mut self, quantifier: Quantifier) -> Option<usize>
        ensures { ReadsBody quantifier self.old self.new result }
    {
        self.rest = after_sign(self.rest, Sign::OpenSquare)?;
        let left = self.read_rule()?;
        let (bound, rest) = read_bound(self.rest)?;
        self.rest = rest;
        let right = self.read_rule()?;
        self.rest = after_sign(self.rest, Sign::CloseSquare)?;
        let line = Line::Until {
            quantifier,
            left,
            bound,
            right,
        };
        Some(self.draft.push(line))
    }

    #[cycle(grammar)]
    fn read_term(&mut self) -> Option<usize>
        ensures { ReadsTerm self.old self.new result }
    {
        let mut left = self.read_item()?;
        while let Some(rest) = after_sign(self.rest, Sign::Amp) {
            self.rest = rest;
            let right = self.read_item()?;
            left = self.draft.push(Line::And(left, right));
        }
        Some(left)
    }

    // Terms joined by `|`, up to what is neither `|` nor `&`.
    #[cycle(grammar)]
    pub fn read_rule(&mut self) -> Option<usize>
        ensures { ReadsRule self.old self.new result }
    {
        let mut left = self.read_term()?;
        while let Some(rest) = after_sign(self.rest, Sign::Bar) {
            self.rest = rest;
            let right = self.read_term()?;
            left = self.draft.push(Line::Or(left, right));
        }
        Some(left)
    }
}
