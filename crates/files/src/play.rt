// Playing a file: its records are calls on a new plan, and each is answered by a line of the report.
ghost use Rattle.files.specs.Plays.{IsFront, Plays, ending_number, playing};
ghost use Rattle.files.specs.Turns.{Leaves};
ghost use Rattle.files.specs.declared.play.PlayFault.TheVariants.{NoMemory as OutOfMemory};
ghost use Rattle.std.specs.Result.{result_err};
ghost use Rattle.std.specs.Prelude.{◌≡◌, Some, length};

use crate::report::Report;
use crate::session::Session;
use banks::Product;
use plans::plan::Plan;
use records::fault::ReaderFault;
use std::alloc::{AllocError, Global};

/// The most bytes that a file may have.
pub const MAX_INPUT: usize = 65_536;

/// What ends a play before the end of its input.
#[derive(Clone, Copy, Debug, PartialEq, Eq)]
pub enum PlayFault {
    /// The file has more than 65,536 bytes; nothing is written.
    InputTooLong,
    /// Fewer than 20 bytes are left in the report, and there is another record.
    ReportFull,
    /// No memory for the plan or for a rule; no line is written for it.
    NoMemory,
    /// The record at this offset cannot be read; its line is written.
    Unreadable(u32, ReaderFault),
}

impl From<AllocError> for PlayFault {
    ghost from_gives = { λ _ r. r ≡ OutOfMemory };

    fn from(_error: AllocError) -> PlayFault {
        Self::NoMemory
    }
}

/// The fault's number in reports.
impl From<PlayFault> for u8 {
    ghost from_gives = { λ fault n. n ≡ ending_number (Some fault) };

    fn from(fault: PlayFault) -> u8 {
        match fault {
            PlayFault::InputTooLong => 12,
            PlayFault::ReportFull => 26,
            PlayFault::NoMemory => 99,
            PlayFault::Unreadable(_, fault) => u8::from(fault),
        }
    }
}

/// How many bytes of the report were written, and what ended the play, if not the end of the input.
#[derive(Clone, Copy, Debug, PartialEq, Eq)]
pub struct Played {
    pub written: usize,
    pub fault: Option<PlayFault>,
}

impl Played {
    /// The number of the fault that ended the play, or 0 at the end of the input.
    pub fn number(self) -> u8
        ensures { result ≡ ending_number self.fault }
    {
        self.fault.map_or(0, u8::from)
    }
}

// A file that is too long is not begun.
fn run(heap: Global, file: &[u8], report: &mut Report) -> Result<(), PlayFault>
    requires { report.old.written ≡ 0 }
    ensures { Leaves (result_err result) report.old report.new (playing file.now (length report.old.bytes.now)) }
{
    if file.len() > MAX_INPUT {
        return Err(PlayFault::InputTooLong);
    }
    let plan = Plan::new(heap, Product::new())?;
    Session::new(heap, plan, file).play_records(report)
}

/// Plays a file over the product's bank: the report gets a line for each record, and keeps every byte past them.
pub fn play(heap: Global, file: &[u8], report: &mut [u8]) -> Played
    ensures plays { Plays result.fault report.old report.new result.written (playing file.now (length report.old)) }
    ensures wanting { result.fault ≡ Some PlayFault.NoMemory → IsFront report.new result.written (playing file.now (length report.old)) }
{
    let mut report = Report::new(report);
    let fault = run(heap, file, &mut report).err();
    Played {
        written: report.written(),
        fault,
    }
}
