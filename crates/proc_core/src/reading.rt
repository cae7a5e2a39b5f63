//! What a process answers from its view, without a turn.

ghost use Rattle.std.specs.Prelude.{◌≡◌, length, MatchResult};
ghost use Rattle.load_model.specs.declared.commands.Command.TheVariants as commands;
ghost use Rattle.load_model.specs.declared.commands.Reply.TheVariants as replies;
ghost use Rattle.load_model.specs.Places.{LiesInPage};
ghost use Rattle.proc_core.specs.Calls.{IsReplied, IsRefusedAtFront};

use crate::proc::Proc;
use load_model::{Place, Refusal, commands_are_told, views_answer};
use lx_types::{EntryKey, Name, ResSpot};

impl Proc {
    /// Reads bytes of code or of the process's own data into a buffer, which is as long as the place. A refusal leaves
    /// the buffer as it was. It waits for nobody and takes no memory.
    pub fn peek(&self, place: &Place, into: &mut [u8]) -> Result<(), Refusal>
        requires { length into.old ≡ place.now.len }
        ensures { MatchResult result
            (λ _. IsReplied self.now (commands.Peek place.now) (replies.Bytes into.new))
            (λ refusal. IsRefusedAtFront self.now (commands.Peek place.now) refusal × (into.new ≡ into.old)) }
    {
        views_answer();
        commands_are_told();
        self.view.peek(place, into)
    }

    /// The bytes of a place where they stand, as `peek` reads them, and refused as there. They lie in one page, as
    /// `Place::lies_in_page` tells. Nothing is copied. It waits for nobody and takes no memory.
    pub fn peek_in_place(&self, place: &Place) -> Result<&[u8], Refusal>
        requires { LiesInPage place.now }
        ensures { MatchResult result
            (λ bytes. IsReplied self.now (commands.Peek place.now) (replies.Bytes bytes.now))
            (λ refusal. IsRefusedAtFront self.now (commands.Peek place.now) refusal) }
    {
        views_answer();
        commands_are_told();
        self.view.peek_in_place(place)
    }

    /// The address of an entry point (DosQueryProcAddr). It waits for nobody and takes no memory.
    pub fn query(&self, module: &Name, key: &EntryKey) -> Result<u32, Refusal>
        ensures { MatchResult result
            (λ address. IsReplied self.now (commands.Query «module».now key.now) (replies.Address address))
            (λ refusal. IsRefusedAtFront self.now (commands.Query «module».now key.now) refusal) }
    {
        views_answer();
        commands_are_told();
        self.view.query(module, key)
    }

    /// Where a resource lies, by its type and its identifier (DosGetResource). It waits for nobody and takes no memory.
    pub fn getres(&self, module: &Name, ty: u16, id: u16) -> Result<ResSpot, Refusal>
        ensures { MatchResult result
            (λ spot. IsReplied self.now (commands.GetRes «module».now ty id) (replies.Spot spot))
            (λ refusal. IsRefusedAtFront self.now (commands.GetRes «module».now ty id) refusal) }
    {
        views_answer();
        commands_are_told();
        self.view.getres(module, ty, id)
    }
}
