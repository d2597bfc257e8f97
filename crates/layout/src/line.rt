// The lines of a page: what each kind says, and how it is written.
ghost use Rattle.std.specs.Option.{option_map};
ghost use Rattle.layout.specs.Reading.{Reads, OneReading};
ghost use Rattle.layout.specs.Splits.{Lacks};
ghost use Rattle.layout.specs.Lines.{write, Fits, line_of, write_move, FitsMove};

use crate::marks::read_marks;
use crate::number::read_number;
use crate::split::split_once;

// The three numbers of a move.
#[derive(Clone, Copy, PartialEq, Eq, Debug)]
pub struct MoveLine {
    pub leaves: u32,
    pub minutes: u32,
    pub enters: u32,
}

// A line of a page.
#[derive(Clone, Copy, PartialEq, Eq, Debug)]
pub enum PageLine<'a> {
    // `stage=` and its marks
    Stage { marks: u16 },
    // `move=` and its three numbers
    Move(MoveLine),
    // `rule=` and its text
    Rule { text: &'a [u8] },
}

// Reads the three numbers of a move, with commas between them.
fn read_move(text: &[u8]) -> Option<MoveLine>
    ensures { Reads write_move FitsMove text.now result }
{
    let (leaves, rest) = split_once(text, b',')?;
    let (minutes, enters) = split_once(rest, b',')?;
    Some(MoveLine {
        leaves: read_number(leaves)?,
        minutes: read_number(minutes)?,
        enters: read_number(enters)?,
    })
}

// Reads a line, given without the byte 10 that ends it.
pub(crate) fn read_line(line: &[u8]) -> Option<PageLine<'_>>
    requires { Lacks 10 line.now }
    ensures { Reads write Fits line.now (option_map line_of result) }
{
    if let Some(text) = line.strip_prefix(b"stage=") {
        let marks = read_marks(text)?;
        return Some(PageLine::Stage { marks });
    }
    if let Some(text) = line.strip_prefix(b"move=") {
        return Some(PageLine::Move(read_move(text)?));
    }
    let text = line.strip_prefix(b"rule=")?;
    Some(PageLine::Rule { text })
}

// A line has at most one reading.
pub fn line_reads_one_way()
    ensures { OneReading write Fits }
{}
