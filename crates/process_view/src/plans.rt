//! What a command comes to that a view does not refuse.

ghost use Rattle.std.specs.Prelude.{◌≡◌, None, Some, MatchResult};
ghost use Rattle.load_model.specs.ViewAnswers.{view_refusal};
ghost use Rattle.process_view.specs.Plans.{IsPlan};

use crate::purposes::Purpose;
use crate::view::View;
use load_model::{Command, How, Place, Refusal};
use lx_types::Bytes;
use mod_refs::Leaving;

/// What is to be done: with the modules that names mean, and with the residences in which places lie, by their numbers among
/// those that the process reaches.
#[derive(Clone, Copy)]
pub enum Plan<'a> {
    /// A module is started or loaded.
    Enter(How, u32),
    /// A load of a module, or all, is given up.
    Leave(Leaving),
    /// Bytes are written to a place.
    Put(usize, &'a Place, &'a Bytes),
    /// Bytes of a place are read that all processes share.
    Read(usize, &'a Place),
    /// Nothing that others could see.
    Steady,
}

impl View {
    // What a command comes to, or why the view refuses it.
    #[tactic(auto, unfolding(load_model::specs::ViewAnswers::view_refusal))]
    pub(crate) fn plan<'a>(&self, command: &'a Command) -> Result<Plan<'a>, Refusal>
        ensures { MatchResult result (IsPlan self.now command.now) (λ refusal. view_refusal self.now.library self.now.holding command.now ≡ Some refusal) }
    {
        match command {
            Command::Start(name) => Ok(Plan::Enter(
                How::Start,
                self.check_enter(How::Start, name)?,
            )),
            Command::Load(name) => Ok(Plan::Enter(How::Load, self.check_enter(How::Load, name)?)),
            Command::Free(name) => Ok(Plan::Leave(Leaving::One(self.check_free(name)?))),
            Command::Write(place, bytes) => {
                Ok(Plan::Put(self.check_use(Purpose::Write, place)?, place, bytes))
            }
            Command::Debug(place, bytes) => {
                Ok(Plan::Put(self.check_use(Purpose::Debug, place)?, place, bytes))
            }
            Command::Shared(place) => Ok(Plan::Read(self.check_use(Purpose::Share, place)?, place)),
            Command::Touch(place) => {
                self.check_use(Purpose::Touch, place)?;
                Ok(Plan::Steady)
            }
            Command::Peek(place) => {
                self.check_use(Purpose::Peek, place)?;
                Ok(Plan::Steady)
            }
            Command::Query(module, key) => {
                self.query(module, key)?;
                Ok(Plan::Steady)
            }
            Command::GetRes(module, ty, id) => {
                self.getres(module, *ty, *id)?;
                Ok(Plan::Steady)
            }
            Command::Exit => {
                if self.is_ended() {
                    return Err(Refusal::Ended);
                }
                Ok(Plan::Leave(Leaving::All))
            }
        }
    }

    /// Why the view refuses a command, if it does.
    pub fn refusal(&self, command: &Command) -> Option<Refusal>
        ensures { result ≡ view_refusal self.now.library self.now.holding command.now }
    {
        self.plan(command).err()
    }
}
