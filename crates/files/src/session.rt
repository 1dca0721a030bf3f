// A session: a plan over a bank, and the file whose records are calls on it.
ghost use Rattle.std.specs.Prelude.{◌≤◌};

use crate::call::called;
use crate::fault::{FileFault, Located};
use crate::line::Answer;
use crate::play::PlayFault;
use crate::report::Report;
use banks::Bank;
use plans::plan::Plan;
use records::reader::Reader;
use std::alloc::Global;

/// A plan, and what is left of the file that is played on it.
// The report is passed beside it: tried inside, where a struct that owns the plan and holds a `&mut` was used in the loop
// "in a way that has no rule yet".
#[derive(Drop)]
pub(crate) struct Session<'a, B> {
    heap: Global,
    plan: Plan<B>,
    reader: Reader<'a>,
    // The file's size, for offsets: the reader is what is left, and knows no beginning.
    size: usize,
    ghost small: { size ≤ 65536 },
}

impl<'a, B: Bank> Session<'a, B> {
    ghost use Rattle.files.specs.Turns.{Leaves, RecordPlayed, Steps, offset_of, to_come};
    ghost use Rattle.std.specs.Prelude.{◌≡◌, length};
    ghost use Rattle.std.specs.Result.{result_err};

    pub(crate) fn new(heap: Global, plan: Plan<B>, file: &'a [u8]) -> Session<'a, B>
        requires { length file.now ≤ 65536 }
        ensures plan { result.plan ≡ plan }
        ensures rest { result.reader ≡ file.now }
        ensures size { result.size ≡ length file.now }
    {
        Session {
            heap,
            plan,
            reader: Reader::new(file),
            size: file.len(),
        }
    }

    // Where the next record's mark stands in the file. The difference saturates: that no more is left than the file's size
    // is not promised of a reader that gave a fault.
    fn offset(&self) -> u32
        ensures { result ≡ offset_of self.now }
    {
        self.size.saturating_sub(self.reader.left()) as u32
    }

    // A record is read whole before the plan sees it.
    #[tactic(auto, unfolding(crate::specs::Plays::step))]
    fn answered(&mut self) -> Result<Answer, FileFault>
        ensures { Steps (B.meaning self.old.plan.bank) result self.old self.new }
    {
        let sent = self.reader.record(self.heap)?;
        Ok(called(&mut self.plan, sent)?)
    }

    // One record: its call is made, and its line is written at the report's end.
    #[tactic(auto, using(crate::proofs::Stepped::fault_played))]
    fn play_record(&mut self, report: &mut Report) -> Result<(), PlayFault>
        ensures { RecordPlayed (B.meaning self.old.plan.bank) result self.old self.new report.old report.new }
    {
        if !report.has_room() {
            return Err(PlayFault::ReportFull);
        }
        let offset = self.offset();
        match self.answered() {
            Ok(answer) => {
                report.put_answer(answer);
                Ok(())
            }
            Err(fault) => report.put_fault(Located { offset, fault }),
        }
    }

    /// The records of the file, one after the other.
    pub(crate) fn play_records(&mut self, report: &mut Report) -> Result<(), PlayFault>
        requires { report.old.written ≡ 0 }
        ensures { Leaves (result_err result) report.old report.new (to_come B.meaning self.old report.old) }
    {
        while self.reader.left() > 0 {
            self.play_record(report)?;
        }
        Ok(())
    }
}
