// Faults of a file: the reader's or the plan's, whole, with the record's offset.
ghost use Rattle.files.specs.Faults.{fault_number};
ghost use Rattle.files.specs.declared.fault.FileFault.TheVariants.{Plan as OfPlan, Reader as OfReader};
ghost use Rattle.std.specs.Prelude.{◌≡◌};

use plans::refusal::Refused;
use records::fault::ReaderFault;

/// A fault met at a record: the layer that gave it, and the fault whole.
#[derive(Clone, Copy, Debug, PartialEq, Eq)]
pub enum FileFault {
    Reader(ReaderFault),
    Plan(Refused),
}

/// The fault's number in reports.
impl From<FileFault> for u8 {
    ghost from_gives = { λ fault n. n ≡ fault_number fault };

    fn from(fault: FileFault) -> u8 {
        match fault {
            FileFault::Reader(fault) => u8::from(fault),
            FileFault::Plan(refused) => u8::from(refused.refusal),
        }
    }
}

impl From<ReaderFault> for FileFault {
    ghost from_gives = { λ f r. r ≡ OfReader f };

    fn from(fault: ReaderFault) -> FileFault {
        Self::Reader(fault)
    }
}

impl From<Refused> for FileFault {
    ghost from_gives = { λ f r. r ≡ OfPlan f };

    fn from(refused: Refused) -> FileFault {
        Self::Plan(refused)
    }
}

/// A fault with the offset of the outermost record's mark.
#[derive(Clone, Copy, Debug, PartialEq, Eq)]
pub struct Located {
    pub offset: u32,
    pub fault: FileFault,
}
