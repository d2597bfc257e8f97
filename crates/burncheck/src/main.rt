// Reads a console page from standard input and writes its answers to standard output. What was done is said in one line
// on standard error.

#![tactic(auto)]

ghost use Rattle.std.specs.Prelude.{◌≡◌, ◌+◌, IfSome, IfOk, take};

use anyhow::anyhow;
use layout::loading::MOST_BYTES;
use page::pages::Summary;
use std::alloc::Global;
use std::io;
use std::io::{Read, Write};

// Reads what may be a page, up to its end or one byte more than a page may have, so that a longer one shows.
fn read_page<R: Read + Drop>(heap: Global, from: R) -> io::Result<Vec<u8>>
    ensures { IfOk result (λ page. IfSome (R.remaining from)
        (λ bytes. page.items ≡ take (MOST_BYTES + 1) bytes)) }
{
    let mut page = Vec::new(heap);
    from.take(MOST_BYTES as u64 + 1).read_to_end(&mut page)?;
    Ok(page)
}

// Says on standard error what was done.
fn say(rt: &impl Eprint, summary: Summary) -> io::Result<()> {
    match summary {
        Summary::Answered {
            stages,
            moves,
            rules,
        } => {
            let (total, checked, refused) = (rules.total(), rules.checked, rules.refused);
            eprintln!(rt;
                "stages {stages}, moves {moves}, rules {total}: {checked} checked, {refused} refused"
            )
        }
        Summary::Refused { fault } => eprintln!(rt; "page refused: {fault}"),
    }
}

fn main(rt: HostRuntime) -> anyhow::Result<()> {
    let page = read_page(rt.alloc(), rt.stdin()).map_err(|reason| anyhow!(
        "standard input cannot be read: {reason}"
    ))?;
    let mut out = Vec::new(rt.alloc());
    let summary = page::answer(rt.alloc(), page.as_slice(), &mut out)?;
    rt.stdout().write_all(out.as_slice()).map_err(|reason| anyhow!(
        "standard output cannot be written: {reason}"
    ))?;
    say(&rt, summary)?;
    Ok(())
}
