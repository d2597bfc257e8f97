// The check on a program given as plain numbers, in one call. `wire_c` offers it to C, and is a crate of its own, since a
// static library is none that Rattle crates can call. What the call is given goes along whole, as the C interface has it.

#![tactic(auto)]

ghost use Rattle.std.specs.Prelude.{◌≤◌, IfOk};

use checker::{CheckFault, check};
use program::{EditFault, MOST_MOVES, MOST_STAGES, Program, Store};
use sheet::tables::Tables;
use std::alloc::{AllocError, Global};
use stores::tray::Tray;
use stores::tray::areas::Areas;
use tally::{Longest, Reach, Shortest, Tally};

// The bytes of the areas for the largest program: four a stage, eight a move.
const STAGE_AREA: usize = 4 * MOST_STAGES;

const MOVE_AREA: usize = 8 * MOST_MOVES;

// The entries of a table: four a stage. (A desk of the checker would not serve: the sheet is the caller's.)
const ENTRIES: usize = 4 * MOST_STAGES;

// Why there is no number of lines to tell.
#[derive(Clone, Copy, PartialEq, Eq, Debug)]
enum Refusal {
    Edit(EditFault),
    Check(CheckFault),
    OutOfMemory,
}

impl From<EditFault> for Refusal {
    fn from(fault: EditFault) -> Refusal {
        Refusal::Edit(fault)
    }
}

impl From<CheckFault> for Refusal {
    fn from(fault: CheckFault) -> Refusal {
        Refusal::Check(fault)
    }
}

impl From<AllocError> for Refusal {
    fn from(_fault: AllocError) -> Refusal {
        Refusal::OutOfMemory
    }
}

// Opens stages with these marks. Marks, and moves below, are bare numbers, as the C interface passes them.
fn open_stages<S: Store>(store: &mut S, marks: &[u16]) -> Result<(), EditFault> {
    for m in marks {
        store.open(*m)?;
    }
    Ok(())
}

// Lays moves of three numbers each: the stage it leaves, the minutes, and the stage it enters.
fn lay_moves<S: Store>(store: &mut S, moves: &[u16]) -> Result<(), EditFault> {
    let (triples, _) = moves.as_chunks::<3>();
    for &[leaves, minutes, enters] in triples {
        store.lay(leaves.into(), minutes.into(), enters.into())?;
    }
    Ok(())
}

// So many checks, one after the other: what the last one answers, and 0 where there is none.
fn check_times<P: Program>(
    times: u32,
    program: &P,
    text: &[u8],
    sheet: &mut [u32],
    tables: &mut Tables,
) -> Result<usize, CheckFault>
    ensures { IfOk result (λ n. n ≤ 32) }
{
    let mut lines = 0;
    for _ in 0..times {
        lines = check(program, text, sheet, tables)?;
    }
    Ok(lines)
}

// Lays the program, and checks the text on it so many times.
fn run(
    heap: Global,
    marks: &[u16],
    moves: &[u16],
    text: &[u8],
    times: u32,
    sheet: &mut [u32],
) -> Result<usize, Refusal>
    ensures { IfOk result (λ n. n ≤ 32) }
{
    let mut areas = Areas {
        stages: vec![in heap; 0; STAGE_AREA]?,
        moves: vec![in heap; 0; MOVE_AREA]?,
    };
    let mut tray = Tray::new(&mut areas);
    open_stages(&mut tray, marks)?;
    lay_moves(&mut tray, moves)?;
    let mut tables = Tables {
        reached: &mut [Reach::none(); ENTRIES],
        shortest: &mut [Shortest::none(); ENTRIES],
        longest: &mut [Longest::none(); ENTRIES],
    };
    Ok(check_times(times, &tray, text, sheet, &mut tables)?)
}

// Checks the text so many times on the program, and leaves the sheet of the last one; the number of lines, or 0 where
// an edit or the check was refused or memory ran out: the C interface has no `Result`, so 0 stands for each `Refusal`.
pub fn burn_check(
    heap: Global,
    marks: &[u16],
    moves: &[u16],
    text: &[u8],
    times: u32,
    sheet: &mut [u32],
) -> usize
    ensures { result ≤ 32 }
{
    run(heap, marks, moves, text, times, sheet).unwrap_or(0)
}
