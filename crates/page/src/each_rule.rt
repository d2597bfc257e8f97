// The rules of a page: each is checked on the program and answered.
ghost use Rattle.std.specs.Prelude.{◌≡◌, ◌+◌, ◌^◌, ◌<◌, min, if◌then◌else◌, is_ok, IfOk, OnErr};
ghost use Rattle.std.specs.Io.{StartsWith};
ghost use Rattle.page.specs.Console.{NextRule, Adds, AddsAll};

use crate::answers::write_rule;
use checker::{CheckFault, Desk};
use layout::line::PageLine;
use layout::loading::{Part, next_line};
use program::Program;
use std::alloc::AllocError;

// How many rules were checked, and how many refused.
#[derive(Clone, Copy, PartialEq, Eq, Debug, Default)]
pub struct Counts {
    pub checked: usize,
    pub refused: usize,
}

impl Counts {
    // How many rules were answered.
    pub fn total(self) -> usize
        ensures { result ≡ min (self.checked + self.refused) usize.MAX }
    {
        self.checked.saturating_add(self.refused)
    }

    // Counts one more answer.
    fn count(&mut self, answer: Result<usize, CheckFault>)
        requires { self.old.checked + self.old.refused + 1 < 2 ^ 64 }
        ensures checked { self.new.checked
            ≡ (if is_ok answer then self.old.checked + 1 else self.old.checked) }
        ensures refused { self.new.refused
            ≡ (if is_ok answer then self.old.refused else self.old.refused + 1) }
    {
        match answer {
            Ok(_) => self.checked += 1,
            Err(_) => self.refused += 1,
        }
    }
}

// The text of the rule that the bytes begin with, and what follows it.
fn next_rule(bytes: &[u8]) -> Option<(&[u8], &[u8])>
    ensures { NextRule bytes.now result }
{
    let (PageLine::Rule { text }, rest) = next_line(bytes, Part::Rules)? else {
        return None;
    };
    Some((text, rest))
}

// Checks a rule and appends its answer, which is given back too. Its text is made whole before, so that an error
// appends nothing.
fn answer_rule<P: Program>(
    program: &P,
    number: usize,
    text: &[u8],
    desk: &mut Desk,
    out: &mut Vec<u8>,
) -> Result<Result<usize, CheckFault>, AllocError>
    ensures adds { IfOk result (λ answer. Adds (P.Program.meaning program.now) number text.now
        out.old.items out.new.items (is_ok answer)) }
    ensures unchanged { OnErr result (out.new.items ≡ out.old.items) }
{
    let answer = desk.check(program, text);
    let sheet = &desk.sheet[..program.stage_count()];
    let mut told = String::new(*out.allocator());
    write_rule(&mut told, number, answer, sheet)?;
    out.extend_from_slice(told.as_bytes())?;
    Ok(answer)
}

// Checks the rules one after another and appends their answers. An error leaves the answers before it.
pub(crate) fn answer_rules<P: Program>(
    program: &P,
    rules: &[u8],
    out: &mut Vec<u8>,
) -> Result<Counts, AllocError>
    ensures adds { IfOk result (λ counts. AddsAll (P.Program.meaning program.now) rules.now
        out.old.items out.new.items counts.checked counts.refused) }
    ensures kept { OnErr result (StartsWith out.new.items out.old.items) }
{
    let mut desk = Desk::new();
    let mut counts = Counts::default();
    let mut rest = rules;
    while let Some((text, after)) = next_rule(rest) {
        let answer = answer_rule(program, counts.total(), text, &mut desk, out)?;
        counts.count(answer);
        rest = after;
    }
    Ok(counts)
}
