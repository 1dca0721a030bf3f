// The call of a play as C makes it.
#![tactic(auto)]

ghost use Rattle.files.specs.Plays.{playing};
ghost use Rattle.host.specs.Answers.{Answers};
ghost use Rattle.host.specs.Laws.{DigitsReadBack, FrontsTheLonger, InTurn, LineByLine, LinesAreText, LinesTell, NumbersFit, RefusalsLeaveThePlan, RoomEnough};
ghost use Rattle.std.specs.Prelude.{length};

use host::PlayAnswer;
use std::alloc::Global;

/// Plays the file: the report gets a line for each record, and keeps every byte past them. The other clauses are laws of
/// every play, for who reads reports.
// The call of `host` again: what C calls is exported by a static library, which no program in Rattle can use.
#[unsafe(no_mangle)]
pub extern "C" fn linenscribe_play(heap: Global, file: &[u8], report: &mut [u8]) -> PlayAnswer
    ensures answer { Answers result report.old report.new (playing file.now (length report.old)) }
    ensures line_by_line { LineByLine }
    ensures lines_are_text { LinesAreText }
    ensures digits_read_back { DigitsReadBack }
    ensures lines_tell { LinesTell }
    ensures numbers_fit { NumbersFit }
    ensures refusals_leave_the_plan { RefusalsLeaveThePlan }
    ensures in_turn { InTurn }
    ensures fronts_the_longer { FrontsTheLonger }
    ensures room_enough { RoomEnough }
{
    host::linenscribe_play(heap, file, report)
}
