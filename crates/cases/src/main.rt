// Runs the pages of data/, by the names that the arguments give, and compares each answer with the one that is due.

#![tactic(auto)]

use std::io::Write;
use std::{env, fs};

// Whether the page of that name gets the answer that is due; if not, both are shown.
fn agrees(rt: &HostRuntime, name: &str) -> anyhow::Result<bool> {
    let heap = rt.alloc();
    let page = fs::read(rt, format!(in heap; "{name}.page")?)?;
    let due = fs::read(rt, format!(in heap; "{name}.out")?)?;
    let mut out = Vec::new(heap);
    let _summary = page::answer(heap, page.as_slice(), &mut out)?;
    let agrees = out == due;
    if !agrees {
        println!(rt; "{name} differs, due is")?;
        rt.stdout().write_all(due.as_slice())?;
        println!(rt; "and given was")?;
        rt.stdout().write_all(out.as_slice())?;
    }
    Ok(agrees)
}

fn main(rt: HostRuntime) -> anyhow::Result<()> {
    let verdicts: Vec<bool> = env::args(&rt)?
        .skip(1)
        .map(|name| agrees(&rt, name.as_str()))
        .try_collect(rt.alloc())?;
    let agree = verdicts.iter().filter(|agrees| **agrees).count();
    let differ = verdicts.len() - agree;
    println!(rt; "{agree} pages agree, {differ} differ")?;
    Ok(())
}
