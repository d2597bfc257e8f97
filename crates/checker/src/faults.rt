// Why a check is refused.
ghost use Rattle.std.specs.Prelude.{◌≡◌};
ghost use Rattle.checker.specs.declared.faults.CheckFault.TheVariants.{Text};
ghost use Rattle.checker.specs.Faults.{fault_number, fault_part, fault_stage};

use reader::ReadFault;

#[derive(Clone, Copy, PartialEq, Eq, Debug)]
pub enum CheckFault {
    // the text is no rule that can be checked
    Text(ReadFault),
    NoStage,
    // a stage without a move out
    DeadEnd(usize),
    // a stage on a cycle of moves that take no time
    StillCycle(usize),
    // the sheet has fewer words than there are stages, or a table fewer than four entries a stage
    ShortMemory,
}

impl CheckFault {
    // The number of the refusal, the part that it lies in, and the stage that it names, or 0: plain numbers, the form
    // that the project asks for.
    pub fn plain(self) -> (u8, u8, usize)
        ensures number { result.0 ≡ fault_number self }
        ensures part { result.1 ≡ fault_part self }
        ensures stage { result.2 ≡ fault_stage self }
    {
        match self {
            CheckFault::Text(fault) => (fault.number(), 0, 0),
            CheckFault::NoStage => (12, 1, 0),
            CheckFault::DeadEnd(s) => (13, 1, s),
            CheckFault::StillCycle(s) => (14, 1, s),
            CheckFault::ShortMemory => (15, 2, 0),
        }
    }
}

// The reader's fault is carried whole.
impl From<ReadFault> for CheckFault {
    ghost from_gives = { λ fault e. e ≡ Text fault };

    fn from(fault: ReadFault) -> CheckFault {
        CheckFault::Text(fault)
    }
}
