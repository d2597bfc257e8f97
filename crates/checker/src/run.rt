// The check on any readable program: the program is asked once for each of its stages and moves.
ghost use Rattle.std.specs.Prelude.{◌≡◌, ◌≤◌, length};
ghost use Rattle.rules.specs.Lines.{most_lines, WellFormed};
ghost use Rattle.sheet.specs.Tables.{SameSlices};
ghost use Rattle.checker.specs.Outcomes.{held, Outcome};
ghost use Rattle.checker.specs.Checks.{Check};

use crate::faults::CheckFault;
use crate::rows::check_rows;
use program::Program;
use program::lists::ProgramCopy;
use reader::read;
use rules::line::Line;
use sheet::tables::Tables;

// The check of lines, each of which may stand where it does.
pub(crate) fn check_lines_of<P: Program>(
    program: &P,
    lines: &[Line],
    sheet: &mut [u32],
    tables: &mut Tables,
) -> Result<usize, CheckFault>
    requires lines { length lines.now ≤ most_lines }
    requires formed { WellFormed lines.now }
    ensures does { Outcome (P.Program.meaning program.now) lines.now
        (held sheet.old tables.old) (held sheet.new tables.new) result }
    ensures slices { SameSlices tables.old tables.new }
{
    let mut copy = ProgramCopy::empty();
    copy.ask(program);
    check_rows(&copy.lists(), lines, sheet, tables)
}

// The check of a rule: the number of its lines, and on the sheet, word by word, the lines that hold at each stage.
pub fn check<P: Program>(
    program: &P,
    text: &[u8],
    sheet: &mut [u32],
    tables: &mut Tables,
) -> Result<usize, CheckFault>
    ensures does { Check (P.Program.meaning program.now) text.now
        (held sheet.old tables.old) (held sheet.new tables.new) result }
    ensures slices { SameSlices tables.old tables.new }
{
    let rule = read(text)?;
    check_lines_of(program, rule.lines(), sheet, tables)
}
