//! Pages that a process makes present.

ghost use Rattle.std.specs.Prelude.{◌≡◌, ◌<◌, ◌^◌, ◌==◌, false, true, None, MatchResult};
ghost use Rattle.load_model.specs.declared.commands.Command.TheVariants as commands;
ghost use Rattle.load_model.specs.Views.{mapped_pages};
ghost use Rattle.load_model.specs.TouchedPages.{has_page};
ghost use Rattle.page_frames.specs.Residences.{ResidenceFor};
ghost use Rattle.process_view.specs.Answering.{IsReachedNamed};
ghost use Rattle.proc_core.specs.Procs.{IsOf, Holds};
ghost use Rattle.proc_core.specs.Calls.{Waited, IsRefusedCall, call_refusal};
ghost use Rattle.proc_core.specs.Touches.{IsTouchAnswered, IsPageAnswered, IsPageOf, needs_fault, page_in};
ghost use Rattle.proc_core.specs.Claiming.{residence_at, is_there, IsClaim, IsOnePage, HasFewTurns};

use crate::loader::Loader;
use crate::proc::Proc;
use crate::turns::{give_back, take_turn};
use load_core::Claim;
use load_model::{
    Place, Refusal, commands_are_told, histories_grow, residences_stand, steps_are_sources,
    views_answer,
};
use lx_types::{Fail, NoMemory, PAGE_LEN, PageBytes, PageId};
use page_fix::Steps;
use process_view::{pages_stand, span_of};
use std::alloc::Global;
use std::sync::ledger::Ledger;
use std::sync::{Arc, Wait};

// Room for the bytes of a page.
fn page_buffer(alloc: Global) -> Result<Box<PageBytes>, NoMemory> {
    Ok(Box::new(alloc, [0; PAGE_LEN])?)
}

/// A page of a residence, which is numbered among those that the process reaches.
#[derive(Clone, Copy)]
struct ResidencePage {
    residence: usize,
    page: PageId,
}

impl Proc {
    // The residence in which a place may be touched, or why it may not.
    fn touched_in(&self, place: &Place) -> Result<usize, Refusal>
        ensures residence { MatchResult result
            (λ k. (call_refusal self.now (commands.Touch place.now) ≡ None) × IsReachedNamed self.now.view place.now.«module» k)
            (IsRefusedCall self.now (commands.Touch place.now)) }
        ensures holds { Holds self.now }
    {
        views_answer();
        commands_are_told();
        let used = self.view.check_touch(place);
        match self.first_refusal(used.err()) {
            Some(refusal) => Err(refusal),
            None => used,
        }
    }

    // Maps a page of the process's own.
    fn touch_private<L: Ledger>(
        &mut self,
        alloc: Global,
        at: ResidencePage,
        steps: &mut Steps<L>,
    ) -> Result<(), NoMemory>
        requires page { IsPageOf self.old.view at.residence at.page }
        requires apart { (d : ResidenceFor) → is_there self.old.view (residence_at self.old.view at.residence d) at.page ≡ false }
        requires fault { (d : ResidenceFor) → needs_fault self.old.view.library (residence_at self.old.view at.residence d).«module»
            (page_in (residence_at self.old.view at.residence d) at.page) ≡ false }
        ensures loader { self.new.lock ≡ self.old.lock }
        ensures page { (d : ResidenceFor) → IsOnePage self.old self.new (residence_at self.old.view at.residence d) at.page steps.old steps.new result }
    {
        pages_stand();
        steps_are_sources();
        self.view.reserve_page()?;
        let buffer = page_buffer(alloc)?;
        self.view.map_private(at.residence, at.page, buffer, steps);
        Ok(())
    }

    // Claims a page that all processes share, in a turn.
    fn claim_page<R: Wait>(
        &mut self,
        rt: &R,
        loader: &Loader,
        at: ResidencePage,
    ) -> Result<Claim, NoMemory>
        requires loader { IsOf loader.now self.old }
        requires few { self.old.known.drawn < 2 ^ 32 }
        requires page { IsPageOf self.old.view at.residence at.page }
        requires apart { (d : ResidenceFor) → is_there self.old.view (residence_at self.old.view at.residence d) at.page ≡ false }
        requires fault { (d : ResidenceFor) → needs_fault self.old.view.library (residence_at self.old.view at.residence d).«module»
            (page_in (residence_at self.old.view at.residence d) at.page) ≡ true }
        ensures loader { IsOf loader.now self.new }
        ensures claim { (d : ResidenceFor) → MatchResult result (IsClaim self.old self.new (residence_at self.old.view at.residence d) at.page)
            (λ _. Waited self.old self.new) }
    {
        histories_grow();
        let mut board = take_turn(rt, loader, &mut self.pass, &mut self.view);
        let claim = self.view.claim(&mut board, at.residence, at.page);
        give_back(loader, &mut self.pass, board);
        claim
    }

    // Maps a page that all processes share. The buffer and the room come first, then the turn, and the page is fixed and
    // published or waited for after it. Nothing after the claim can fail.
    fn touch_shared<R: Wait, L: Ledger>(
        &mut self,
        rt: &R,
        alloc: Global,
        loader: &Loader,
        at: ResidencePage,
        steps: &mut Steps<L>,
    ) -> Result<(), NoMemory>
        requires loader { IsOf loader.now self.old }
        requires few { self.old.known.drawn < 2 ^ 32 }
        requires page { IsPageOf self.old.view at.residence at.page }
        requires apart { (d : ResidenceFor) → is_there self.old.view (residence_at self.old.view at.residence d) at.page ≡ false }
        requires fault { (d : ResidenceFor) → needs_fault self.old.view.library (residence_at self.old.view at.residence d).«module»
            (page_in (residence_at self.old.view at.residence d) at.page) ≡ true }
        ensures loader { IsOf loader.now self.new }
        ensures page { (d : ResidenceFor) → IsOnePage self.old self.new (residence_at self.old.view at.residence d) at.page steps.old steps.new result }
    {
        pages_stand();
        steps_are_sources();
        let mut bytes = self.view.prepare_page(alloc)?;
        let Some(buffer) = Arc::get_mut(&mut bytes) else {
            return Err(NoMemory);
        };
        match self.claim_page(rt, loader, at)? {
            Claim::Right(right) => {
                let fixed = self.view.fix(at.residence, right, buffer, steps);
                self.view.publish(rt, at.residence, at.page, fixed, bytes);
                self.view.map_shared(rt, at.residence, at.page);
            }
            Claim::Taken => self.view.map_taken(rt, at.residence, at.page, bytes),
        }
        Ok(())
    }

    // Makes one page of a residence present.
    fn touch_page<R: Wait, L: Ledger>(
        &mut self,
        rt: &R,
        alloc: Global,
        loader: &Loader,
        at: ResidencePage,
        steps: &mut Steps<L>,
    ) -> Result<(), NoMemory>
        requires loader { IsOf loader.now self.old }
        requires few { self.old.known.drawn < 2 ^ 32 }
        requires page { IsPageOf self.old.view at.residence at.page }
        ensures loader { IsOf loader.now self.new }
        ensures page { (d : ResidenceFor) → IsPageAnswered self.old self.new (page_in (residence_at self.old.view at.residence d) at.page)
            (residence_at self.old.view at.residence d).«module» steps.old steps.new result }
        ensures turns { (d : ResidenceFor) → HasFewTurns self.old self.new (residence_at self.old.view at.residence d) at.page }
    {
        if self.view.is_mapped(at.residence, at.page) {
            return Ok(());
        }
        if self.view.is_shared_page(at.residence, at.page) {
            self.touch_shared(rt, alloc, loader, at, steps)
        } else {
            self.touch_private(alloc, at, steps)
        }
    }

    /// Makes the pages of a place present, in ascending order. Each page of code and of a shared object that is not mapped
    /// yet takes a turn; it is fixed by this process or waited for outside of it. Without memory the first pages of the
    /// place are mapped, and no other. `steps` rises by the sources of the pages that this process fixed.
    pub fn touch<R: Wait, L: Ledger>(
        &mut self,
        rt: &R,
        alloc: Global,
        loader: &Loader,
        place: &Place,
        steps: &mut Steps<L>,
    ) -> Result<(), Fail<Refusal>>
        requires loader { IsOf loader.now self.old }
        ensures loader { IsOf loader.now self.new }
        ensures answer { IsTouchAnswered self.old self.new place.now steps.old steps.new result }
    {
        residences_stand();
        let residence = match self.touched_in(place) {
            Ok(residence) => residence,
            Err(refusal) => return Err(Fail::Said(refusal)),
        };
        let span = span_of(place.offset, place.len);
        for number in span.first..span.end {
            let page = PageId {
                object: place.object,
                page: number,
            };
            self.touch_page(rt, alloc, loader, ResidencePage { residence, page }, steps)?;
        }
        Ok(())
    }
}
