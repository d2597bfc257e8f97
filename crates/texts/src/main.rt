// Reads the texts of a file and holds what the reader gives against what the file says: a text stands in one line, its
// rule's lines, or `refused=` and the number, in the next. In a text, `\xNN` is the byte of that number.

#![tactic(auto)]

ghost use Rattle.std.specs.Prelude.{◌<◌};

use itertools::Itertools;
use std::alloc::{AllocError, Global};
use std::{env, fs};

// The value of a hexadecimal digit in lower case, 0 of any other byte; `to_digit` would read upper case too.
fn hex(digit: u8) -> u8
    ensures { result < 16 }
{
    match digit {
        b'0'..=b'9' => digit - b'0',
        b'a'..=b'f' => digit - b'a' + 10,
        _ => 0,
    }
}

fn unescape(heap: Global, line: &[u8]) -> Result<Vec<u8>, AllocError> {
    let mut bytes = Vec::new(heap);
    let mut rest = line;
    loop {
        let (byte, after) = match rest {
            [] => return Ok(bytes),
            [b'\\', b'x', high, low, after @ ..] => (hex(*high) * 16 + hex(*low), after),
            [byte, after @ ..] => (*byte, after),
        };
        bytes.push(byte)?;
        rest = after;
    }
}

// What the reader gives, in the file's notation.
fn show(heap: Global, text: &[u8]) -> Result<String, AllocError> {
    match reader::read(text) {
        Err(fault) => {
            let number = fault.number();
            format!(in heap; "refused={number}")
        }
        Ok(rule) => rule.lines().iter().join(heap, "  "),
    }
}

fn compare(rt: &HostRuntime, name: &str) -> anyhow::Result<()> {
    let heap = rt.alloc();
    let page = fs::read_to_string(rt, name)?;
    let mut agree: u32 = 0;
    let mut differ: u32 = 0;
    for ((_, text), (i, wanted)) in page.as_str().lines().enumerate().tuples() {
        let text = unescape(heap, text.as_bytes())?;
        let shown = show(heap, text.as_slice())?;
        if shown.as_str() == wanted {
            agree = agree.wrapping_add(1);
        } else {
            differ = differ.wrapping_add(1);
            println!(rt; "after line {i} the reader gives {shown}")?;
        }
    }
    println!(rt; "{name}: {agree} agree, {differ} differ")?;
    Ok(())
}

fn main(rt: HostRuntime) -> anyhow::Result<()> {
    for name in env::args(&rt)?.skip(1) {
        compare(&rt, name.as_str())?;
    }
    Ok(())
}
