//! Turns of a process: the board comes to it, and goes back.

ghost use Rattle.std.specs.Prelude.{◌≡◌, ◌<◌, ◌^◌, [], Some, length};
ghost use Rattle.turn_lock.specs.Passes.{Idle, HasTurn};
ghost use Rattle.turn_lock.specs.Turns.{Adds, giving};
ghost use Rattle.load_model.specs.declared.deeds.Entry.{Entry};
ghost use Rattle.proc_core.specs.Procs.{Holds, proc_state};
ghost use Rattle.proc_core.specs.Turns.{in_turn, HasCome, IsToldBy};

use crate::answers::{Acted, Done};
use crate::kept::Kept;
use crate::loader::Loader;
use load_core::Board;
use load_model::{Refusal, histories_grow, others_leave_alike, views_stand};
use lx_types::{Bytes, Fail};
use process_view::View;
use std::sync::Wait;
use turn_lock::Pass;

// Takes a turn: the view is shown what others did meanwhile, and stands for it.
pub(crate) fn take_turn<R: Wait>(
    rt: &R,
    loader: &Loader,
    pass: &mut Pass<Kept>,
    view: &mut View,
) -> Board
    requires of { pass.old.table_id ≡ loader.now }
    requires idle { Idle pass.old.me }
    requires few { pass.old.me.0.drawn < 2 ^ 32 }
    requires holds { Holds (proc_state pass.old view.old) }
    ensures of { pass.new.table_id ≡ loader.now }
    ensures turn { HasTurn pass.new.me }
    ensures knows { in_turn (proc_state pass.old view.old) result.history pass.new.me.0 }
    ensures come { HasCome (proc_state pass.old view.old) result view.new }
{
    histories_grow();
    others_leave_alike();
    views_stand();
    let Kept { board } = loader.lock.turn(rt, pass);
    let _ = board.history();
    view.follow(&board);
    board
}

// Gives the board back, with the entry that this process added, if it added one.
pub(crate) fn give_back(loader: &Loader, pass: &mut Pass<Kept>, board: Board)
    requires of { pass.old.table_id ≡ loader.now }
    requires turn { HasTurn pass.old.me }
    requires about { pass.old.me.0.subject ≡ Some (record { library = board.library; failing = board.failing }) }
    requires adds { Adds (λ (x : Entry). x.pid) pass.old.me.0.pid pass.old.me.0.seen board.history }
    ensures of { pass.new.table_id ≡ loader.now }
    ensures gave { pass.new.me ≡ (giving (λ (x : Entry). x.pid) board.history pass.old.me.0, []) }
{
    loader.lock.give(pass, Kept { board });
}

// The answer of a call that is done: the number of its entry is how much of the history the process has seen.
pub(crate) fn told_by(
    pass: &Pass<Kept>,
    done: Result<Bytes, Fail<Refusal>>,
) -> Result<Acted, Fail<Refusal>>
    ensures { IsToldBy (length pass.now.me.0.seen) done result }
{
    match done {
        Ok(bytes) => Ok(Acted {
            done: Done {
                number: pass.front(),
            },
            bytes,
        }),
        Err(fail) => Err(fail),
    }
}
