//! What a view refuses by itself, in the order in which the refusals are tried.

ghost use Rattle.std.specs.Prelude.{◌≡◌, ◌<◌, ◌-◌, Some, None, MatchOption, MatchResult, find, is_none, length};
ghost use Rattle.std.specs.List.{range_with_len};
ghost use Rattle.load_model.specs.declared.commands.Command.TheVariants as commands;
ghost use Rattle.load_model.specs.Modules.{number_of};
ghost use Rattle.load_model.specs.Modules as modules;
ghost use Rattle.load_model.specs.Memory.{page};
ghost use Rattle.load_model.specs.ViewAnswers.{view_refusal, view_place_refusal, view_module_refusal, reached_named};
ghost use Rattle.process_view.specs.Purposes.{purpose_of};
ghost use Rattle.process_pages.specs.PageRows.{place_in};
ghost use Rattle.process_view.specs.Answering.{enter_command, touch_refusal_by, IsReachedNamed};

use crate::purposes::Purpose;
use crate::spans::{Span, span_of, span_refusal};
use crate::view::View;
use load_model::{How, Place, Refusal};
use lx_types::{MAX_LOADS, Name, PageId};
use mod_graph::{Health, Library};
use mod_refs::LoadCounts;
use process_pages::PageRows;

// Why a module cannot be loaded, by what it reaches.
#[tactic(auto, unfolding(load_model::specs::Modules::unfit))]
fn unfit(lib: &Library, m: u32) -> Option<Refusal>
    requires { m < length lib.now }
    ensures { result ≡ modules.unfit lib.now m }
{
    match lib.health(m) {
        Health::Fit => None,
        Health::NoModule { .. } => Some(Refusal::NoModule),
        Health::NoEntry { .. } => Some(Refusal::NoEntry),
        Health::ForwardLoop { .. } => Some(Refusal::ForwardLoop),
        Health::Gate286 { .. } => Some(Refusal::Gate286),
    }
}

// Whether the module is a library.
#[tactic(auto, unfolding(load_model::specs::Modules::is_library))]
fn is_library(lib: &Library, m: u32) -> bool
    requires { m < length lib.now }
    ensures { result ≡ modules.is_library lib.now m }
{
    lib.module(m).is_library()
}

// Why a program cannot be started.
fn program_refusal(lib: &Library, m: u32) -> Option<Refusal>
    requires { m < length lib.now }
    ensures { result ≡ (when (modules.is_library lib.now m) Refusal.NotProgram orelse modules.unfit lib.now m) }
{
    if is_library(lib, m) {
        return Some(Refusal::NotProgram);
    }
    unfit(lib, m)
}

ghost use Rattle.load_model.specs.Refusals.{when, ◌orelse◌};

// Why a library cannot be loaded by who holds this many loads of it.
fn library_refusal(lib: &Library, m: u32, held: u32) -> Option<Refusal>
    requires { m < length lib.now }
    ensures { result ≡ (when (not (modules.is_library lib.now m)) Refusal.NotLibrary orelse modules.unfit lib.now m
        orelse when (nat_le MAX_LOADS held) Refusal.CountFull) }
{
    if !is_library(lib, m) {
        return Some(Refusal::NotLibrary);
    }
    if let Some(refusal) = unfit(lib, m) {
        return Some(refusal);
    }
    if held >= MAX_LOADS {
        return Some(Refusal::CountFull);
    }
    None
}

ghost use Rattle.std.specs.Prelude.{not, nat_le};

// The first page of an object, of those that bytes cover, that has no place.
fn first_unmapped(places: &PageRows, object: u32, span: Span) -> Option<u32>
    requires { span.first ≤ span.end }
    ensures { result ≡ find (λ n. is_none (place_in places.now (page object n))) (range_with_len span.first (span.end - span.first)) }
{
    for page in span.first..span.end {
        if places.get(PageId { object, page }).is_none() {
            return Some(page);
        }
    }
    None
}

ghost use Rattle.std.specs.Prelude.{◌≤◌};

// Why a place cannot be used so, where its pages have these places.
fn touch_refusal(places: &PageRows, purpose: Purpose, place: &Place) -> Option<Refusal>
    ensures { result ≡ touch_refusal_by purpose places.now place.now }
{
    match purpose {
        Purpose::Touch => None,
        Purpose::Write | Purpose::Share | Purpose::Peek | Purpose::Debug => {
            let page = first_unmapped(places, place.object, span_of(place.offset, place.len))?;
            Some(Refusal::NotTouched { page })
        }
    }
}

impl View {
    // The residence that the process reaches of the module that a name means, by its number among them.
    pub(crate) fn reached_named(&self, name: &Name) -> Option<usize>
        ensures { MatchOption result (reached_named self.now.library self.now.holding name.now ≡ None) (IsReachedNamed self.now name.now) }
    {
        let m = self.hints.find(&self.lib, name)?;
        self.finder.find(&self.residences, m)
    }

    // The module that a start or a load asks for by name, or why the view refuses it.
    #[tactic(auto, unfolding(load_model::specs::ViewAnswers::view_refusal, load_model::specs::Modules::number_of))]
    pub(crate) fn check_enter(&self, how: How, name: &Name) -> Result<u32, Refusal>
        ensures { MatchResult result
            (λ m. (view_refusal self.now.library self.now.holding (enter_command how name.now) ≡ None) × (number_of self.now.library name.now ≡ Some m)
            × (m < length self.now.library))
            (λ refusal. view_refusal self.now.library self.now.holding (enter_command how name.now) ≡ Some refusal) }
    {
        if self.ended {
            return Err(Refusal::Ended);
        }
        if matches!(how, How::Start) && self.counts.started().is_some() {
            return Err(Refusal::Started);
        }
        let Some(m) = self.lib.find(name) else {
            return Err(Refusal::NoModule);
        };
        let refusal = match how {
            How::Start => program_refusal(&self.lib, m),
            How::Load => library_refusal(&self.lib, m, self.counts.held(m)),
        };
        match refusal {
            Some(refusal) => Err(refusal),
            None => Ok(m),
        }
    }

    // The module of which a free gives up a load, or why the view refuses it.
    #[tactic(auto, unfolding(load_model::specs::ViewAnswers::view_refusal, load_model::specs::Modules::number_of))]
    pub(crate) fn check_free(&self, name: &Name) -> Result<u32, Refusal>
        ensures { MatchResult result
            (λ m. (view_refusal self.now.library self.now.holding (commands.Free name.now) ≡ None) × (number_of self.now.library name.now ≡ Some m)
            × (m < length self.now.library))
            (λ refusal. view_refusal self.now.library self.now.holding (commands.Free name.now) ≡ Some refusal) }
    {
        if self.ended {
            return Err(Refusal::Ended);
        }
        match self.lib.find(name) {
            Some(m) if self.counts.held(m) > 0 => Ok(m),
            _ => Err(Refusal::NotHeld),
        }
    }

    // The residence in which a place may be used so, by its number among those that the process reaches, or why the view
    // refuses it.
    pub(crate) fn check_use(&self, purpose: Purpose, place: &Place) -> Result<usize, Refusal>
        ensures { MatchResult result
            (λ k. (view_place_refusal self.now.library self.now.holding (purpose_of purpose) place.now ≡ None) × IsReachedNamed self.now place.now.«module» k)
            (λ refusal. view_place_refusal self.now.library self.now.holding (purpose_of purpose) place.now ≡ Some refusal) }
    {
        if self.is_ended() {
            return Err(Refusal::Ended);
        }
        let Some(k) = self.reached_named(&place.module) else {
            return Err(Refusal::NotAttached);
        };
        let outside = span_refusal(self.library(), self.residence_module(k), purpose, place);
        if let Some(refusal) = outside {
            return Err(refusal);
        }
        if let Some(refusal) = touch_refusal(&self.reached_at(k).places, purpose, place) {
            return Err(refusal);
        }
        Ok(k)
    }

    /// The residence in which a place may be touched, by its number among those that the process reaches, or why the view
    /// refuses it.
    #[tactic(auto, unfolding(load_model::specs::ViewAnswers::view_refusal))]
    pub fn check_touch(&self, place: &Place) -> Result<usize, Refusal>
        ensures { MatchResult result
            (λ k. (view_refusal self.now.library self.now.holding (commands.Touch place.now) ≡ None) × IsReachedNamed self.now place.now.«module» k)
            (λ refusal. view_refusal self.now.library self.now.holding (commands.Touch place.now) ≡ Some refusal) }
    {
        self.check_use(Purpose::Touch, place)
    }
}
