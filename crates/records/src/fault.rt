// Why a record cannot be read.
ghost use Rattle.records.specs.Faults.{reader_number};
ghost use Rattle.records.specs.declared.fault.ReaderFault.TheVariants.{NoMemory};
ghost use Rattle.std.specs.Prelude.{◌≡◌};

use std::alloc::AllocError;

/// Why a record cannot be read.
#[derive(Clone, Copy, Debug, PartialEq, Eq)]
pub enum ReaderFault {
    /// The input ends before the next field does.
    Short,
    /// A mark that stands for no record here.
    UnknownMark,
    /// A letter that stands for no reading.
    UnknownLetter,
    /// More than 2 tallies.
    TooManyTallies,
    /// More than 12 elements.
    TooManyElements,
    /// No memory for a rule.
    NoMemory,
}

/// The fault's number in reports.
impl From<ReaderFault> for u8 {
    ghost from_gives = { λ fault number. number ≡ reader_number fault };

    fn from(fault: ReaderFault) -> u8 {
        match fault {
            ReaderFault::Short => 1,
            ReaderFault::UnknownMark => 2,
            ReaderFault::UnknownLetter => 3,
            ReaderFault::TooManyTallies | ReaderFault::TooManyElements => 9,
            ReaderFault::NoMemory => 99,
        }
    }
}

impl From<AllocError> for ReaderFault {
    ghost from_gives = { λ _ r. r ≡ NoMemory };

    fn from(_error: AllocError) -> ReaderFault {
        Self::NoMemory
    }
}
