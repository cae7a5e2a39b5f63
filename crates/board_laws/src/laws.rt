//! Lists of calls on a board.

ghost use Rattle.std.specs.Prelude.{◌≡◌, ◌<◌, true, length};
ghost use Rattle.load_model.specs.State.{pids, is_among};
ghost use Rattle.load_core.specs.BoardState.{MayAsk};
ghost use Rattle.load_core.specs.Answered.{IsReady};
ghost use Rattle.board_laws.specs.Calls.{IsCall, asks, looks};
ghost use Rattle.board_laws.specs.CallLaws.{CallsAreAnswered};

use load_core::{Answer, Board};
use load_model::Ask;
use lx_types::NoMemory;

/// Whatever is called on a new board, the history is legal before and after each call, and each call answers what the
/// definitions say at its place.
pub fn calls_are_answered()
    ensures { CallsAreAnswered }
{}

// What a process asks is such a call.
fn acts_are_calls(
    board: &mut Board,
    pid: u32,
    ask: Ask,
    buffer: &mut [u8],
) -> Result<Answer, NoMemory>
    requires process { is_among pids pid ≡ true }
    requires may { MayAsk board.old pid ask }
    requires ready { IsReady board.old ask buffer.old }
    ensures { IsCall board.old board.new (asks pid ask buffer.old buffer.new result) }
{
    board.act(pid, ask, buffer)
}

// So is a look at what a process reaches.
fn looks_are_calls(board: &Board, pid: u32, m: u32) -> bool
    requires process { is_among pids pid ≡ true }
    requires module { m < length board.now.library }
    ensures { IsCall board.now board.now (looks pid m result) }
{
    board.reaches(pid, m)
}
