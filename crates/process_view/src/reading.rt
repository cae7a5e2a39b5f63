//! What a view answers by itself: bytes of its own pages, addresses and resources.

ghost use Rattle.std.specs.Prelude.{◌≡◌, ◌≤◌, ◌<◌, ◌+◌, ◌⊎◌, slice_index_or, ℕ, Ok, Some, None, IfSome, MatchOption, MatchResult, length, map};
ghost use Rattle.std.specs.List.{range_with_len};
ghost use Rattle.load_model.specs.declared.commands.Command.TheVariants as commands;
ghost use Rattle.load_model.specs.declared.commands.Reply.TheVariants as replies;
ghost use Rattle.load_model.specs.Modules as modules;
ghost use Rattle.page_frames.specs.Residences.{ResidenceFor};
ghost use Rattle.load_model.specs.Refusals as uses;
ghost use Rattle.load_model.specs.ViewAnswers.{view_refusal, view_place_refusal, view_reply, view_address, view_bytes, reached_named};
ghost use Rattle.load_model.specs.Places.{LiesInPage};
ghost use Rattle.process_pages.specs.ReachedResidences.{residences_in};
ghost use Rattle.process_view.specs.Answering.{residence_with, base_if, IsReachedNamed, IsReachedAt};

use crate::purposes::Purpose;
use crate::spans::span_refusal;
use crate::view::View;
use load_model::{Place, Refusal};
use lx_types::{EntryKey, Name, ResSpot};
use mod_graph::{EntryFault, Library, Spot};
use process_pages::{MappedPage, ReachedResidence, copy_out, residence_place, run_at};

// The spot that a key of module `m` means.
#[tactic(auto, unfolding(load_model::specs::Modules::entry_spot))]
fn entry_spot(lib: &Library, m: u32, key: &EntryKey) -> Result<Spot, EntryFault>
    requires { m < length lib.now }
    ensures { result ≡ modules.entry_spot lib.now m key.now }
{
    match key {
        EntryKey::Ordinal(ordinal) => lib.entry(m, *ordinal),
        EntryKey::Named(name) => lib.entry_named(m, name.bytes()),
    }
}

// Why there is no such spot.
fn refusal_of(fault: EntryFault) -> Refusal
    ensures { result ≡ modules.refusal_of_entry fault }
{
    match fault {
        EntryFault::NoEntry => Refusal::NoEntry,
        EntryFault::Gate286 => Refusal::Gate286,
        EntryFault::ForwardLoop => Refusal::ForwardLoop,
    }
}

// The base of the object of a spot, where its module's residence stands.
fn spot_base(residences: &[ReachedResidence], spot: Spot) -> u32
    ensures { result ≡ base_if spot (residence_with (residences_in residences.now) spot.«module») }
{
    match residence_place(residences, spot.module) {
        Some(k) => {
            let residence = &residences[k].residence;
            residence.bases().base(residence.module(), spot.object)
        }
        None => 0,
    }
}

impl View {
    // The address of a spot, where its module's residence stands.
    fn address(&self, spot: Spot) -> u32
        ensures { result ≡ view_address self.now.holding (Ok spot) }
    {
        spot_base(&self.residences, spot).wrapping_add(spot.offset)
    }

    // The module of a residence that the process reaches.
    pub(crate) fn residence_module(&self, k: usize) -> u32
        requires { k < length self.now.residences }
        ensures number { (d : ResidenceFor) → result ≡ (slice_index_or self.now.residences k d).«module» }
        ensures within { result < length self.now.library }
    {
        self.residences[k].residence.module()
    }

    // A residence that the process reaches, with the places of its pages.
    pub(crate) fn reached_at(&self, k: usize) -> &ReachedResidence
        requires { k < length self.now.residences }
        ensures { IsReachedAt self.now k result.now }
    {
        &self.residences[k]
    }

    // The pages that the process has mapped.
    fn mapped(&self) -> &[MappedPage]
        ensures { result.now ≡ self.now.holding.mapped }
    {
        self.pages.as_slice()
    }

    // Copies the bytes of a place that is mapped.
    pub(crate) fn copy_place(&self, k: usize, place: &Place, into: &mut [u8])
        requires fits { length into.old ≡ place.now.len }
        requires named { IsReachedNamed self.now place.now.«module» k }
        requires used { (view_place_refusal self.now.library self.now.holding uses.peek place.now ≡ None)
            ⊎ (view_place_refusal self.now.library self.now.holding uses.share place.now ≡ None) }
        ensures { into.new ≡ view_bytes self.now.holding place.now (reached_named self.now.library self.now.holding place.now.«module») }
    {
        copy_out(self.mapped(), &self.reached_at(k).places, place, into);
    }

    // The bytes of a place that may be peeked, where they stand, if they lie in one page.
    fn run(&self, place: &Place) -> Option<&[u8]>
        ensures length { IfSome result (λ run. length run.now ≡ place.now.len) }
        ensures run { MatchOption result
            (LiesInPage place.now → view_place_refusal self.now.library self.now.holding uses.peek place.now ≡ None → place.now.len ≡ 0)
            (λ run. (view_place_refusal self.now.library self.now.holding uses.peek place.now ≡ None)
            × (run.now ≡ view_bytes self.now.holding place.now (reached_named self.now.library self.now.holding place.now.«module»))) }
    {
        if self.is_ended() {
            return None;
        }
        let k = self.reached_named(&place.module)?;
        let run = run_at(self.mapped(), &self.reached_at(k).places, place)?;
        match span_refusal(
            self.library(),
            self.residence_module(k),
            Purpose::Peek,
            place,
        ) {
            Some(_) => None,
            None => Some(run),
        }
    }

    /// The bytes of a place of one page where they stand, as `peek` reads them, and refused as there. Nothing is copied, and
    /// it takes no memory.
    #[tactic(auto, unfolding(load_model::specs::ViewAnswers::view_refusal))]
    pub fn peek_in_place(&self, place: &Place) -> Result<&[u8], Refusal>
        requires { LiesInPage place.now }
        ensures { MatchResult result
            (λ bytes. (view_refusal self.now.library self.now.holding (commands.Peek place.now) ≡ None)
            × (view_reply self.now.library self.now.holding (commands.Peek place.now) ≡ Some (replies.Bytes bytes.now)))
            (λ refusal. view_refusal self.now.library self.now.holding (commands.Peek place.now) ≡ Some refusal) }
    {
        match self.run(place) {
            Some(run) => Ok(run),
            None => match self.check_use(Purpose::Peek, place) {
                Ok(_) => Ok(&[]),
                Err(refusal) => Err(refusal),
            },
        }
    }

    // Reads bytes of pages into a buffer that is as long as the place, or says why it cannot.
    #[tactic(auto, unfolding(load_model::specs::ViewAnswers::view_refusal))]
    fn peek_pages(&self, place: &Place, into: &mut [u8]) -> Result<(), Refusal>
        requires { length into.old ≡ place.now.len }
        ensures { MatchResult result
            (λ _. (view_refusal self.now.library self.now.holding (commands.Peek place.now) ≡ None)
            × (view_reply self.now.library self.now.holding (commands.Peek place.now) ≡ Some (replies.Bytes into.new)))
            (λ refusal. (view_refusal self.now.library self.now.holding (commands.Peek place.now) ≡ Some refusal) × (into.new ≡ into.old)) }
    {
        match self.check_use(Purpose::Peek, place) {
            Ok(k) => {
                self.copy_place(k, place, into);
                Ok(())
            }
            Err(refusal) => Err(refusal),
        }
    }

    /// Reads bytes of code or of the process's own data, with its own writes, into a buffer that is as long as the place. A
    /// refusal leaves the buffer as it was. It takes no memory. Beside the copying it looks up the module by its name, its
    /// residence and each page; of bytes in one page each of these once.
    #[tactic(auto, unfolding(load_model::specs::ViewAnswers::view_refusal))]
    pub fn peek(&self, place: &Place, into: &mut [u8]) -> Result<(), Refusal>
        requires { length into.old ≡ place.now.len }
        ensures { MatchResult result
            (λ _. (view_refusal self.now.library self.now.holding (commands.Peek place.now) ≡ None)
            × (view_reply self.now.library self.now.holding (commands.Peek place.now) ≡ Some (replies.Bytes into.new)))
            (λ refusal. (view_refusal self.now.library self.now.holding (commands.Peek place.now) ≡ Some refusal) × (into.new ≡ into.old)) }
    {
        match self.run(place) {
            Some(run) => {
                into.copy_from_slice(run);
                Ok(())
            }
            None => self.peek_pages(place, into),
        }
    }

    /// The address of an entry point (DosQueryProcAddr), from an ordinal or a name. It takes no memory.
    pub fn query(&self, module: &Name, key: &EntryKey) -> Result<u32, Refusal>
        ensures { MatchResult result
            (λ address. (view_refusal self.now.library self.now.holding (commands.Query «module».now key.now) ≡ None)
            × (view_reply self.now.library self.now.holding (commands.Query «module».now key.now) ≡ Some (replies.Address address)))
            (λ refusal. view_refusal self.now.library self.now.holding (commands.Query «module».now key.now) ≡ Some refusal) }
    {
        if self.is_ended() {
            return Err(Refusal::Ended);
        }
        let Some(k) = self.reached_named(module) else {
            return Err(Refusal::NotAttached);
        };
        match entry_spot(self.library(), self.residence_module(k), key) {
            Ok(spot) => Ok(self.address(spot)),
            Err(fault) => Err(refusal_of(fault)),
        }
    }

    /// Where a resource lies, by its type and its identifier (DosGetResource). It takes no memory.
    pub fn getres(&self, module: &Name, ty: u16, id: u16) -> Result<ResSpot, Refusal>
        ensures { MatchResult result
            (λ spot. (view_refusal self.now.library self.now.holding (commands.GetRes «module».now ty id) ≡ None)
            × (view_reply self.now.library self.now.holding (commands.GetRes «module».now ty id) ≡ Some (replies.Spot spot)))
            (λ refusal. view_refusal self.now.library self.now.holding (commands.GetRes «module».now ty id) ≡ Some refusal) }
    {
        if self.is_ended() {
            return Err(Refusal::Ended);
        }
        let Some(k) = self.reached_named(module) else {
            return Err(Refusal::NotAttached);
        };
        match resource_of(self.library(), self.residence_module(k), ty, id) {
            Some(spot) => Ok(spot),
            None => Err(Refusal::NoResource),
        }
    }
}

// Where module `m` has a resource.
#[tactic(auto, unfolding(load_model::specs::Modules::resource_of))]
fn resource_of(lib: &Library, m: u32, ty: u16, id: u16) -> Option<ResSpot>
    requires { m < length lib.now }
    ensures { result ≡ modules.resource_of lib.now m ty id }
{
    res_core::find(lib.module(m), ty, id)
}
