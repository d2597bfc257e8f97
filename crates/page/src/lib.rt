// The console page: `answer` is a function from the bytes of a page to the bytes of its answers. The page is laid into
// a tray, and each of its rules is checked on what the tray then holds. Rests on the layout of a page, on the check and
// on the tray, and, below them, on programs, rules and the theory of runs.

#![tactic(auto)]

mod answers;
pub mod each_rule;
pub mod faults;
pub mod pages;

ghost use Rattle.std.specs.Prelude.{◌≡◌, IfOk, OnErr};
ghost use Rattle.program.specs.Meaning.{empty};
ghost use Rattle.page.specs.Whole.{full_room, AddsPage};

use crate::pages::{Summary, answer_over};
use std::alloc::{AllocError, Global};
use stores::tray::Tray;
use stores::tray::areas::Areas;

// The bytes of a tray's areas at full capacity: 4 a stage, 8 a move.
const STAGE_AREA: usize = 4096;

const MOVE_AREA: usize = 32768;

// The first room for answers: more than one rule's takes, so that from there on it doubles, whatever their lengths.
const FIRST_ROOM: usize = 8192;

// Appends the answers to a page, and says what was done. The one error is want of memory.
pub fn answer(heap: Global, page: &[u8], out: &mut Vec<u8>) -> Result<Summary, AllocError>
    ensures answers { IfOk result (λ summary. AddsPage full_room empty page.now
        out.old.items out.new.items summary) }
    ensures unchanged { OnErr result (out.new.items ≡ out.old.items) }
{
    let stages = vec![in heap; 0u8; STAGE_AREA]?;
    let moves = vec![in heap; 0u8; MOVE_AREA]?;
    let mut areas = Areas { stages, moves };
    let mut tray = Tray::new(&mut areas);
    let before = out.len();
    // Where it can't be had, each answer asks for the room that it takes.
    let _first = out.reserve(FIRST_ROOM);
    let Ok(summary) = answer_over(&mut tray, page, out) else {
        out.truncate(before);
        return Err(AllocError);
    };
    Ok(summary)
}
