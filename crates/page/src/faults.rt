// Why the console refuses a page or one of its rules.
use checker::CheckFault;
use layout::faults::PageFault;

// The fault below is carried whole.
#[derive(Clone, Copy, PartialEq, Eq, Debug)]
pub enum ConsoleFault {
    // of the page
    Page(PageFault),
    // of one of its rules
    Rule(CheckFault),
}
