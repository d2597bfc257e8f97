// The check of lines on the lists of a program, after the two tests of the program and that of the memory.
ghost use Rattle.std.specs.Prelude.{◌≡◌, ◌<◌, ◌≤◌, length, None};
ghost use Rattle.program.specs.Meaning.{most_stages, prog};
ghost use Rattle.rules.specs.Lines.{most_lines, WellFormed};
ghost use Rattle.sheet.specs.Tables.{SameSlices};
ghost use Rattle.checker.specs.Outcomes.{held, Outcome};
ghost use Rattle.checker.specs.Found.{enough?, DeadFound};

use crate::faults::CheckFault;
use crate::tests::{dead_end, still_stage};
use program::lists::Lists;
use rules::line::Line;
use settle::links::{Chained, Chains};
use sheet::paths::Paths;
use sheet::sheets::check_lines;
use sheet::tables::Tables;

// Whether the sheet has a word a stage, and each table four entries a stage.
fn has_room(n: usize, sheet: &[u32], tables: &Tables) -> bool
    requires { n ≤ most_stages }
    ensures { result ≡ enough? n (held sheet.now tables.now) }
{
    n <= sheet.len()
        && 4 * n <= tables.reached.len()
        && 4 * n <= tables.shortest.len()
        && 4 * n <= tables.longest.len()
}

// The check of lines along paths, of stages that each have a move out.
fn check_paths(
    paths: &Paths,
    lines: &[Line],
    sheet: &mut [u32],
    tables: &mut Tables,
) -> Result<usize, CheckFault>
    requires some { 0 < length paths.now.stages.now }
    requires onward { DeadFound (prog paths.now.stages.now paths.now.moves.now) None }
    requires lines { length lines.now ≤ most_lines }
    requires formed { WellFormed lines.now }
    ensures does { Outcome (prog paths.now.stages.now paths.now.moves.now) lines.now
        (held sheet.old tables.old) (held sheet.new tables.new) result }
    ensures slices { SameSlices tables.old tables.new }
{
    if let Some(s) = still_stage(paths) {
        return Err(CheckFault::StillCycle(s));
    }
    if !has_room(paths.stages.len(), sheet, tables) {
        return Err(CheckFault::ShortMemory);
    }
    check_lines(paths, lines, sheet, tables);
    Ok(lines.len())
}

// The check of lines along chained moves.
fn check_chained(
    lists: &Lists,
    lines: &[Line],
    sheet: &mut [u32],
    tables: &mut Tables,
) -> Result<usize, CheckFault>
    requires some { 0 < length lists.now.stages.now }
    requires onward { DeadFound (prog lists.now.stages.now lists.now.moves.now) None }
    requires lines { length lines.now ≤ most_lines }
    requires formed { WellFormed lines.now }
    ensures does { Outcome (prog lists.now.stages.now lists.now.moves.now) lines.now
        (held sheet.old tables.old) (held sheet.new tables.new) result }
    ensures slices { SameSlices tables.old tables.new }
{
    let stages = lists.stages.len();
    let chains = Chains::of(stages, lists.moves);
    let chained = Chained {
        stages,
        moves: lists.moves,
        chains: &chains,
    };
    check_paths(&Paths::along(lists.stages, chained), lines, sheet, tables)
}

// So many steps take no more time than it takes to make a queue.
const FEW_STEPS: usize = 2500;

// Whether chains pay: an until, or the search for a cycle of moves that take no time, goes along them, and rounds, at
// most as many as stages and each over all moves and stages, could be long.
fn chains_pay(lists: &Lists, lines: &[Line]) -> bool {
    let stages = lists.stages.len();
    stages * (lists.moves.len() + 2 * stages) > FEW_STEPS
        && (lines.iter().any(|line| matches!(line, Line::Until { .. }))
            || lists.moves.iter().any(|m| m.minutes == 0))
}

// The check of lines, each of which may stand where it does.
pub(crate) fn check_rows(
    lists: &Lists,
    lines: &[Line],
    sheet: &mut [u32],
    tables: &mut Tables,
) -> Result<usize, CheckFault>
    requires lines { length lines.now ≤ most_lines }
    requires formed { WellFormed lines.now }
    ensures does { Outcome (prog lists.now.stages.now lists.now.moves.now) lines.now
        (held sheet.old tables.old) (held sheet.new tables.new) result }
    ensures slices { SameSlices tables.old tables.new }
{
    if lists.stages.is_empty() {
        return Err(CheckFault::NoStage);
    }
    if let Some(s) = dead_end(lists.stages, lists.moves) {
        return Err(CheckFault::DeadEnd(s));
    }
    if chains_pay(lists, lines) {
        return check_chained(lists, lines, sheet, tables);
    }
    check_paths(&Paths::of(lists.stages, lists.moves), lines, sheet, tables)
}
