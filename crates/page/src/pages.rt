// A page is answered over an empty store: it is loaded, and then its rules are checked one after another.
ghost use Rattle.std.specs.Prelude.{IfOk, OnErr};
ghost use Rattle.std.specs.Io.{StartsWith};
ghost use Rattle.page.specs.Whole.{AddsPage};

use crate::answers::write_refused;
use crate::each_rule::{Counts, answer_rules};
use crate::faults::ConsoleFault;
use layout::faults::PageFault;
use layout::loading::load;
use program::Store;
use std::alloc::AllocError;

// What was done with a page. No Result of its own: in the one that want of memory needs, it would read as an error of
// the call, and a page that is refused is answered too.
#[derive(Clone, Copy, PartialEq, Eq, Debug)]
pub enum Summary {
    // its rules were answered
    Answered {
        stages: usize,
        moves: usize,
        rules: Counts,
    },
    // it was refused, and none of its rules was checked
    Refused {
        fault: PageFault,
    },
}

// Loads a page into the store and appends the answers. An error leaves the answers before it.
pub(crate) fn answer_over<S: Store>(
    store: &mut S,
    page: &[u8],
    out: &mut Vec<u8>,
) -> Result<Summary, AllocError>
    ensures adds { IfOk result (λ summary. AddsPage (S.room store.old) (S.Program.meaning store.old)
        page.now out.old.items out.new.items summary) }
    ensures kept { OnErr result (StartsWith out.new.items out.old.items) }
{
    match load(store, page) {
        Ok(rules) => {
            let rules = answer_rules(store, rules, out)?;
            Ok(Summary::Answered {
                stages: store.stage_count(),
                moves: store.move_count(),
                rules,
            })
        }
        Err(fault) => {
            let mut told = String::new(*out.allocator());
            write_refused(&mut told, ConsoleFault::Page(fault))?;
            out.extend_from_slice(told.as_bytes())?;
            Ok(Summary::Refused { fault })
        }
    }
}
