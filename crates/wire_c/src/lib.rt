// The C interface of `wire`: a static library for the benchmark in bench/, which calls it from Rust.

#![tactic(auto)]

ghost use Rattle.std.specs.Prelude.{◌≤◌};

use std::alloc::Global;

// Checks the text so many times on the program, and leaves the sheet of the last one; the number of lines, or 0 where
// an edit or the check was refused or memory ran out: C is handed plain numbers, so 0 stands for each of these.
#[unsafe(no_mangle)]
pub extern "C" fn burn_check(
    heap: Global,
    marks: &[u16],
    moves: &[u16],
    text: &[u8],
    times: u32,
    sheet: &mut [u32],
) -> usize
    ensures { result ≤ 32 }
{
    wire::burn_check(heap, marks, moves, text, times, sheet)
}
