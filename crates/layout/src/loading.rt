// A page is loaded into a store line by line: parsed, then edited.
ghost use Rattle.std.specs.Prelude.{◌≡◌};
ghost use Rattle.layout.specs.Lines.{line_of};
ghost use Rattle.layout.specs.Outcomes.{OneOutcome};
ghost use Rattle.layout.specs.Pages.{part_of, NextLine, edit_step, Edited, Loads};

use crate::faults::PageFault;
use crate::line::{PageLine, read_line};
use crate::split::split_once;
use program::{EditFault, Store};

// The most bytes of a page.
pub const MOST_BYTES: usize = 16384;

// The parts of a page, in the order in which they stand.
#[derive(Clone, Copy, PartialEq, Eq, PartialOrd, Ord, Debug)]
pub enum Part {
    Stages,
    Moves,
    Rules,
}

// The part that a line stands in.
fn part_of(line: PageLine) -> Part
    ensures { result ≡ part_of (line_of line.entry) }
{
    match line {
        PageLine::Stage { .. } => Part::Stages,
        PageLine::Move(_) => Part::Moves,
        PageLine::Rule { .. } => Part::Rules,
    }
}

// The line that the bytes begin with and what follows it, if it is in form and may stand in a part from `part` on.
pub fn next_line(bytes: &[u8], part: Part) -> Option<(PageLine<'_>, &[u8])>
    ensures { NextLine part bytes.now result }
{
    let (line, rest) = split_once(bytes, b'\n')?;
    let line = read_line(line)?;
    if part_of(line) < part {
        return None;
    }
    Some((line, rest))
}

// Does what a line says to the store; a rule says nothing to it.
fn edit<S: Store>(store: &mut S, line: PageLine) -> Result<(), EditFault>
    ensures does { Edited
        (edit_step (S.room store.old) (S.Program.meaning store.old) (line_of line.entry))
        result (S.Program.meaning store.new) }
    ensures kept { S.room store.new ≡ S.room store.old }
{
    match line {
        PageLine::Stage { marks } => {
            store.open(marks)?;
        }
        PageLine::Move(line) => {
            store.lay(line.leaves as usize, line.minutes, line.enters as usize)?;
        }
        PageLine::Rule { .. } => {}
    }
    Ok(())
}

// Loads the stages and moves of a page into the store, and gives the lines from the first rule on.
pub fn load<'a, S: Store>(store: &mut S, page: &'a [u8]) -> Result<&'a [u8], PageFault>
    ensures { Loads (S.room store.old) (S.Program.meaning store.old) page.now
        result (S.Program.meaning store.new) }
{
    if page.len() > MOST_BYTES {
        return Err(PageFault::TooLong);
    }
    // No iterator has the lines to number them: where one ends, and what may follow, shows as it is read.
    let mut part = Part::Stages;
    let mut number = 0;
    let mut rest = page;
    let mut rules = page;
    while !rest.is_empty() {
        number += 1;
        let (line, after) = next_line(rest, part).ok_or(PageFault::OutOfForm { line: number })?;
        edit(store, line).map_err(|fault| PageFault::Edit {
            line: number,
            fault,
        })?;
        part = part_of(line);
        rest = after;
        if part != Part::Rules {
            rules = rest;
        }
    }
    Ok(rules)
}

// A page is taken whole in one way, or refused for one line, and never both.
pub fn one_outcome()
    ensures { OneOutcome }
{}
