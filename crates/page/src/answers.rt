// The text of the answers to a page.
ghost use Rattle.std.specs.Prelude.{◌≡◌, ◌<◌, ◌++◌, OnOk, string_bytes};
ghost use Rattle.page.specs.Answers.{holds_in, stages_of, holds_line, refused};
ghost use Rattle.page.specs.Answers.{answer_of, rule_bytes, Lined};

use crate::faults::ConsoleFault;
use checker::CheckFault;
use itertools::Itertools;
use std::alloc::AllocError;

// Whether a line holds at the stage of the word.
fn holds_in(line: usize, word: u32) -> bool
    requires { line < 32 }
    ensures { result ≡ holds_in line word }
{
    (word >> line) % 2 == 1
}

// Appends the line with the stages at which a line of a rule holds.
pub(crate) fn write_holds(out: &mut String, line: usize, sheet: &[u32]) -> Result<(), AllocError>
    requires { line < 32 }
    ensures { OnOk result (string_bytes out.new
        ≡ string_bytes out.old ++ holds_line (stages_of line sheet.now)) }
{
    let stages = sheet
        .iter()
        .copied()
        .positions(|word| holds_in(line, word))
        .join(*out.allocator(), ",")?;
    writeln!(out, "holds={stages}")
}

// Appends a refusal.
pub(crate) fn write_refused(out: &mut String, fault: ConsoleFault) -> Result<(), AllocError>
    ensures { OnOk result (string_bytes out.new ≡ string_bytes out.old ++ refused fault) }
{
    match fault {
        ConsoleFault::Page(fault) => {
            let (number, line) = (fault.number(), fault.line());
            writeln!(out, "refused={number}\nline={line}")
        }
        ConsoleFault::Rule(fault) => {
            let (number, _, stage) = fault.plain();
            writeln!(out, "refused={number}\nat={stage}")
        }
    }
}

// Appends the answer to a rule: its number, and how it was checked.
pub(crate) fn write_rule(
    out: &mut String,
    number: usize,
    answer: Result<usize, CheckFault>,
    sheet: &[u32],
) -> Result<(), AllocError>
    requires { Lined answer }
    ensures { OnOk result (string_bytes out.new
        ≡ string_bytes out.old ++ rule_bytes number (answer_of answer sheet.now)) }
{
    writeln!(out, "rule={number}")?;
    match answer {
        Ok(lines) => {
            writeln!(out, "lines={lines}")?;
            write_holds(out, lines - 1, sheet)
        }
        Err(fault) => write_refused(out, ConsoleFault::Rule(fault)),
    }
}
