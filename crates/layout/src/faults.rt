// Why a page is refused.
ghost use Rattle.std.specs.Prelude.{◌≡◌, Some};
ghost use Rattle.layout.specs.Faults.{fault_number, fault_line, fault_text};

use crate::loading::MOST_BYTES;
use program::EditFault;
use std::error::Error;
use std::fmt;

// Lines are counted from 1.
#[derive(Clone, Copy, PartialEq, Eq, Debug)]
pub enum PageFault {
    // more bytes than a page may have
    TooLong,
    // a line that breaks the form of a page
    OutOfForm { line: usize },
    // a line whose edit the store refuses
    Edit { line: usize, fault: EditFault },
}

// The number of the refusal of a page out of form.
const OUT_OF_FORM: u8 = 16;

impl PageFault {
    // The number of the refusal. It is matched, and no discriminant, since a refused edit brings its own.
    pub fn number(self) -> u8
        ensures { result ≡ fault_number self }
    {
        match self {
            PageFault::TooLong | PageFault::OutOfForm { .. } => OUT_OF_FORM,
            PageFault::Edit { fault, .. } => fault.number(),
        }
    }

    // The line that is refused, or 0 for a page that is too long, as the answer to a page writes it.
    pub fn line(self) -> usize
        ensures { result ≡ fault_line self }
    {
        match self {
            PageFault::TooLong => 0,
            PageFault::OutOfForm { line } | PageFault::Edit { line, .. } => line,
        }
    }
}

impl fmt::Display for PageFault {
    ghost output = { λ e. Some (fault_text e) };

    fn fmt<W: fmt::Write>(&self, f: &mut fmt::Formatter<W>) -> fmt::Result {
        match self {
            PageFault::TooLong => write!(f, "it has more than {MOST_BYTES} bytes"),
            PageFault::OutOfForm { line } => write!(f, "line {line} is out of form"),
            PageFault::Edit { line, fault } => write!(f, "at line {line}, {fault}"),
        }
    }
}

impl Error for PageFault {}
