// Play as a C program calls it: on the bytes of a file and of a report, answering plain numbers.
#![tactic(auto)]

ghost use Rattle.files.specs.Plays.{playing};
ghost use Rattle.host.specs.Answers.{Answers, Numbers, ending_offset};
ghost use Rattle.host.specs.Laws.{DigitsReadBack, FrontsTheLonger, InTurn, LineByLine, LinesAreText, LinesTell, NumbersFit, RefusalsLeaveThePlan, RoomEnough};
ghost use Rattle.std.specs.Prelude.{◌≡◌, length};

use files::play::{PlayFault, Played, play};
use std::alloc::Global;

/// What a play answers, in numbers, since C reads it.
#[repr(C)]
#[derive(Clone, Copy, Debug, PartialEq, Eq)]
pub struct PlayAnswer {
    /// How many bytes of the report were written.
    pub written: usize,
    /// The number of the fault that ended the play, or 0 at the end of the input.
    pub fault: u32,
    /// The offset of the record that could not be read, or 0 where the play ended otherwise.
    pub offset: u32,
}

// One fault has an offset: no method of `Option` is plainer than the match.
fn offset_of(fault: Option<PlayFault>) -> u32
    ensures { result ≡ ending_offset fault }
{
    match fault {
        Some(PlayFault::Unreadable(offset, _)) => offset,
        _ => 0,
    }
}

impl From<Played> for PlayAnswer {
    ghost from_gives = { Numbers };

    fn from(played: Played) -> PlayAnswer {
        PlayAnswer {
            written: played.written,
            fault: u32::from(played.number()),
            offset: offset_of(played.fault),
        }
    }
}

/// Plays the file: the report gets a line for each record, and keeps every byte past them. The other clauses are laws of
/// every play, for who reads reports.
pub fn linenscribe_play(heap: Global, file: &[u8], report: &mut [u8]) -> PlayAnswer
    ensures answer { Answers result report.old report.new (playing file.now (length report.old)) }
    ensures line_by_line { LineByLine }
    ensures lines_are_text { LinesAreText }
    ensures digits_read_back { DigitsReadBack }
    ensures lines_tell { LinesTell }
    ensures numbers_fit { NumbersFit }
    ensures refusals_leave_the_plan { RefusalsLeaveThePlan }
    ensures in_turn { InTurn }
    ensures fronts_the_longer { FrontsTheLonger }
    ensures room_enough { RoomEnough }
{
    PlayAnswer::from(play(heap, file, report))
}
