// Makes any list of calls on any store.
ghost use Rattle.std.specs.Prelude.{◌≡◌, IfOk};
ghost use Rattle.program.specs.Meaning.{empty};
ghost use Rattle.program.specs.Tidy.{Tidy, StaysTidy};
ghost use Rattle.session.specs.Answers.{Answered, Makes};
ghost use Rattle.session.specs.Sessions.{Performed};

use crate::calls::{Answer, Call, OutOfMemory, Verdict};
use checker::Desk;
use program::{Program, Store};
use std::alloc::{AllocError, Global};

// Checks a text, with memory enough for any program.
fn answer_check<P: Program>(heap: Global, program: &P, text: &[u8]) -> Result<Answer, AllocError>
    ensures { IfOk result (λ a. Answered (P.Program.meaning program.now) text.now a) }
{
    let mut desk = Desk::new();
    match desk.check(program, text) {
        Ok(lines) => {
            let words = Vec::from_slice(heap, &desk.sheet[..program.stage_count()])?;
            Ok(Answer::Checked(Ok(Verdict { lines, words })))
        }
        Err(fault) => Ok(Answer::Checked(Err(fault))),
    }
}

// Makes one call. Where there is no memory for the answer of a check, nothing is changed.
fn answer<S: Store>(heap: Global, store: &mut S, call: &Call) -> Result<Answer, AllocError>
    ensures does { Makes (S.room store.old) (S.Program.meaning store.old)
        call.now result (S.Program.meaning store.new) }
    ensures tidy { StaysTidy (S.Program.meaning store.old)
        (S.Program.meaning store.new) }
    ensures kept { S.room store.new ≡ S.room store.old }
{
    match call {
        Call::Edit(edit) => Ok(Answer::Edited(edit.make(store))),
        Call::Check(text) => answer_check(heap, store, text),
    }
}

// Makes the calls in their order, and gives their answers. There is room for an answer before its call is made, so that
// each call that is made is answered.
pub fn perform<S: Store>(
    heap: Global,
    store: &mut S,
    calls: &[Call],
) -> Result<Vec<Answer>, OutOfMemory>
    ensures main { S.Program.meaning store.old ≡ empty
        → Performed (S.room store.old) empty calls.now result
        (S.Program.meaning store.new) }
    ensures onward { Tidy (S.Program.meaning store.old)
        → Performed (S.room store.old) (S.Program.meaning store.old) calls.now result
        (S.Program.meaning store.new) }
    ensures tidy { StaysTidy (S.Program.meaning store.old)
        (S.Program.meaning store.new) }
    ensures kept { S.room store.new ≡ S.room store.old }
{
    let mut answers = Vec::new(heap);
    for call in calls {
        let Ok(()) = answers.reserve(1) else {
            return Err(OutOfMemory { answers });
        };
        let Ok(given) = answer(heap, store, call) else {
            return Err(OutOfMemory { answers });
        };
        answers.push_reserved(given);
    }
    Ok(answers)
}
