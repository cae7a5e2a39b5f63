//! Bytes that a process writes, and shared bytes that it reads.

ghost use Rattle.std.specs.Prelude.{◌≡◌, ◌≤◌, ℕ, [], None, true, IfOk, OnOk, OnErr, option_copied, length, slice_index_or};
ghost use Rattle.std.specs.Option.{ForSome};
ghost use Rattle.page_frames.specs.Residences.{ResidenceFor};
ghost use Rattle.load_model.specs.declared.commands.Command.{Command};
ghost use Rattle.load_model.specs.Refusals as uses;
ghost use Rattle.load_model.specs.ViewAnswers.{view_place_refusal};
ghost use Rattle.load_model.specs.State.{pids, is_among};
ghost use Rattle.load_core.specs.BoardState.{MayAsk, Adds};
ghost use Rattle.process_pages.specs.Writing.{covered_count, IsWriteTo};
ghost use Rattle.process_view.specs.declared.plans.Plan.TheVariants as plans;
ghost use Rattle.process_view.specs.ProcessViews.{StandsAt};
ghost use Rattle.process_view.specs.Answering.{IsReachedNamed};
ghost use Rattle.process_view.specs.Plans.{IsPlan};
ghost use Rattle.process_view.specs.Deeds.{IsDone, IsInClass, reading, written_to, own_write, with_write, with_own, write_ask};

use crate::spans::class_of;
use crate::view::View;
use load_core::Board;
use load_model::{Place, Refusal, residences_stay, views_stand};
use lx_types::{Bytes, Class, Fail, NoMemory, Seq};
use process_pages::{SparePages, covered_count, put_covered};
use std::alloc::Global;
use std::mem;
use write_overlay::Write;

// The write of bytes to a place of an object of a class, where it is the process's own.
fn own_write(
    alloc: Global,
    class: Class,
    place: &Place,
    bytes: &[u8],
) -> Result<Option<Write>, NoMemory>
    ensures { IfOk result (λ own. own ≡ own_write class (written_to place.now bytes.now)) }
{
    match class {
        Class::Shared => Ok(None),
        Class::Code | Class::Private => {
            let bytes = Seq::from_vec(Vec::from_slice(alloc, bytes)?);
            Ok(Some(Write::new(place.object, place.offset, bytes)))
        }
    }
}

// The entry of bytes that a process writes to an object of a class in the residence of a serial number: a debug write, where
// it is code. Nothing is done without memory.
fn add_write(
    board: &mut Board,
    pid: u32,
    serial: u64,
    class: Class,
    place: &Place,
    bytes: &[u8],
) -> Result<(), NoMemory>
    requires process { is_among pids pid ≡ true }
    requires may { (m : ℕ) × MayAsk board.old pid (write_ask class serial m place.now bytes.now) }
    ensures entry { OnOk result ((m : ℕ) → MayAsk board.old pid (write_ask class serial m place.now bytes.now)
        → Adds board.old board.new pid (write_ask class serial m place.now bytes.now)) }
    ensures err { OnErr result (board.new ≡ board.old) }
{
    match class {
        Class::Code => board.debug(pid, serial, place.object, place.offset, bytes),
        Class::Private | Class::Shared => {
            board.write(pid, serial, place.object, place.offset, bytes)
        }
    }
}

impl View {
    // Who sees a write to the place.
    fn class_at(&self, k: usize, place: &Place) -> Class
        requires named { IsReachedNamed self.now place.now.«module» k }
        requires used { (purpose : uses.Purpose) × (view_place_refusal self.now.library self.now.holding purpose place.now ≡ None) }
        ensures { IsInClass self.now k place.now result }
    {
        class_of(self.library(), self.residence_module(k), place.object)
    }

    // Buffers for the pages that a place covers, those that were not used among them.
    fn spares_for(&mut self, alloc: Global, place: &Place) -> Result<SparePages, NoMemory>
        ensures spares { IfOk result (λ spares. covered_count place.now ≤ spares) }
        ensures same { self.new ≡ self.old }
    {
        let mut spares = mem::replace(&mut self.spares, SparePages::none(alloc));
        spares.fill(alloc, covered_count(place))?;
        Ok(spares)
    }

    // Keeps the buffers that were not used.
    fn keep_spares(&mut self, spares: SparePages)
        ensures { self.new ≡ self.old }
    {
        self.spares = spares;
    }

    // Puts a write of the process's own into those of its pages that the place covers.
    fn put_own(&mut self, k: usize, place: &Place, write: &Write, spares: &mut SparePages)
        requires named { IsReachedNamed self.old place.now.«module» k }
        requires used { (purpose : uses.Purpose) × (view_place_refusal self.old.library self.old.holding purpose place.now ≡ None) }
        requires place { IsWriteTo place.now write.now }
        requires spares { covered_count place.now ≤ spares.old }
        ensures { (d : ResidenceFor) → self.new ≡ with_write (slice_index_or self.old.residences k d).serial write.now self.old }
    {
        put_covered(
            self.pages.as_mut_slice(),
            &self.residences[k],
            place,
            write,
            spares,
        );
    }

    // The same, where it is the process's own.
    fn keep_own(&mut self, k: usize, place: &Place, own: Option<&Write>, spares: &mut SparePages)
        requires named { IsReachedNamed self.old place.now.«module» k }
        requires used { (purpose : uses.Purpose) × (view_place_refusal self.old.library self.old.holding purpose place.now ≡ None) }
        requires place { ForSome (option_copied own) (IsWriteTo place.now) }
        requires spares { covered_count place.now ≤ spares.old }
        ensures { (d : ResidenceFor) → self.new ≡ with_own (slice_index_or self.old.residences k d).serial (option_copied own.entry) self.old }
    {
        if let Some(write) = own {
            self.put_own(k, place, write, spares);
        }
    }

    // Writes bytes to a place: for the process alone, or for all that share the object. Nothing is done without memory.
    pub(crate) fn put(
        &mut self,
        alloc: Global,
        board: &mut Board,
        k: usize,
        place: &Place,
        bytes: &Bytes,
    ) -> Result<(), Fail<Refusal>>
        requires stands { StandsAt board.old self.old }
        requires planned { (command : Command) × IsPlan self.old command (plans.Put k place bytes) }
        requires fits { length bytes.now ≡ place.now.len }
        ensures { (command : Command) → IsPlan self.old command (plans.Put k place.entry bytes.entry)
            → IsDone board.old board.new self.old self.new command (reading [] result) }
    {
        residences_stay();
        views_stand();
        board.history();
        let pid = self.pid();
        let serial = self.residence(k).serial();
        let class = self.class_at(k, place);
        let own = own_write(alloc, class, place, bytes.as_slice())?;
        let mut spares = self.spares_for(alloc, place)?;
        add_write(board, pid, serial, class, place, bytes.as_slice())?;
        self.keep_own(k, place, own.as_ref(), &mut spares);
        self.keep_spares(spares);
        self.follow(board);
        Ok(())
    }

    // Reads bytes of a place that all processes share into a buffer that is as long as the place: the process's own copy of
    // them, and over it the writes that all share. Nothing is done without memory.
    fn read_into(
        &mut self,
        board: &mut Board,
        k: usize,
        place: &Place,
        into: &mut [u8],
    ) -> Result<(), Fail<Refusal>>
        requires stands { StandsAt board.old self.old }
        requires planned { (command : Command) × IsPlan self.old command (plans.Read k place) }
        requires fits { length into.old ≡ place.now.len }
        ensures { (command : Command) → IsPlan self.old command (plans.Read k place.entry)
            → IsDone board.old board.new self.old self.new command (reading into.new result) }
    {
        residences_stay();
        views_stand();
        board.history();
        let pid = self.pid();
        let serial = self.residence(k).serial();
        self.copy_place(k, place, into);
        board.read_shared(pid, serial, place.object, place.offset, into)?;
        self.follow(board);
        Ok(())
    }

    // The same into a buffer of its own.
    pub(crate) fn read(
        &mut self,
        alloc: Global,
        board: &mut Board,
        k: usize,
        place: &Place,
    ) -> Result<Bytes, Fail<Refusal>>
        requires stands { StandsAt board.old self.old }
        requires planned { (command : Command) × IsPlan self.old command (plans.Read k place) }
        ensures { (command : Command) → IsPlan self.old command (plans.Read k place.entry)
            → IsDone board.old board.new self.old self.new command result }
    {
        let mut bytes = vec![in alloc; 0; place.len as usize]?;
        self.read_into(board, k, place, bytes.as_mut_slice())?;
        Ok(Seq::from_vec(bytes))
    }
}
