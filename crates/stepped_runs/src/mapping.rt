//! Pages that a process maps over a board, by its view alone.

ghost use Rattle.std.specs.Prelude.{◌≡◌, ◌<◌, false, true};
ghost use Rattle.page_frames.specs.Residences.{ResidenceFor};
ghost use Rattle.proc_core.specs.Touches.{IsPageOf, needs_fault, page_in};
ghost use Rattle.proc_core.specs.Claiming.{residence_at, is_there};
ghost use Rattle.process_view.specs.Deeds.{IsSharedPage};
ghost use Rattle.stepped_runs.specs.OneThread.{CanGoOn, WentOn, MappedMore};

use load_core::{Board, Claim};
use load_model::{Place, Reply, residences_stand};
use lx_types::{NoMemory, PAGE_LEN, PageBytes, PageId};
use page_fix::Steps;
use process_view::{View, pages_stand, span_of};
use std::alloc::Global;
use std::sync::ledger::{Blank, Ledger};
use std::sync::{Arc, Wait};

/// A page of a residence, which is numbered among those that the process reaches.
#[derive(Clone, Copy)]
struct ResidencePage {
    residence: usize,
    page: PageId,
}

// Room for the bytes of a page.
fn page_buffer(alloc: Global) -> Result<Box<PageBytes>, NoMemory> {
    Ok(Box::new(alloc, [0; PAGE_LEN])?)
}

// Maps a page that all processes share.
fn map_shared<R: Wait + AllocGlobal, L: Ledger>(
    rt: &R,
    board: &mut Board,
    view: &mut View,
    at: ResidencePage,
    steps: &mut Steps<L>,
) -> Result<(), NoMemory>
    requires stands { CanGoOn board.old view.old }
    requires room { 0 < view.old.page_room }
    requires page { IsPageOf view.old at.residence at.page }
    requires apart { (d : ResidenceFor) → is_there view.old (residence_at view.old at.residence d) at.page ≡ false }
    requires shared { (d : ResidenceFor) → IsSharedPage view.old (residence_at view.old at.residence d) at.page }
    ensures { MappedMore board.old board.new view.old view.new }
{
    pages_stand();
    board.history();
    let mut bytes = Arc::new(rt.alloc(), [0; PAGE_LEN])?;
    let Some(buffer) = Arc::get_mut(&mut bytes) else {
        return Err(NoMemory);
    };
    view.follow(board);
    let claim = view.claim(board, at.residence, at.page)?;
    board.history();
    match claim {
        Claim::Right(right) => {
            let fixed = view.fix(at.residence, right, buffer, steps);
            view.publish(rt, at.residence, at.page, fixed, bytes);
            view.map_shared(rt, at.residence, at.page);
        }
        Claim::Taken => view.map_taken(rt, at.residence, at.page, bytes),
    }
    Ok(())
}

// Maps a page of the process's own.
fn map_own<L: Ledger>(
    alloc: Global,
    board: &Board,
    view: &mut View,
    at: ResidencePage,
    steps: &mut Steps<L>,
) -> Result<(), NoMemory>
    requires stands { CanGoOn board.now view.old }
    requires room { 0 < view.old.page_room }
    requires page { IsPageOf view.old at.residence at.page }
    requires apart { (d : ResidenceFor) → is_there view.old (residence_at view.old at.residence d) at.page ≡ false }
    requires own { (d : ResidenceFor) → needs_fault view.old.library (residence_at view.old at.residence d).«module»
        (page_in (residence_at view.old at.residence d) at.page)
        ≡ false }
    ensures { MappedMore board.now board.now view.old view.new }
{
    pages_stand();
    board.history();
    let buffer = page_buffer(alloc)?;
    view.map_private(at.residence, at.page, buffer, steps);
    Ok(())
}

// Makes one page of a residence present.
fn touch_page<R: Wait + AllocGlobal, L: Ledger>(
    rt: &R,
    board: &mut Board,
    view: &mut View,
    at: ResidencePage,
    steps: &mut Steps<L>,
) -> Result<(), NoMemory>
    requires stands { CanGoOn board.old view.old }
    requires page { IsPageOf view.old at.residence at.page }
    ensures { MappedMore board.old board.new view.old view.new }
{
    if view.is_mapped(at.residence, at.page) {
        return Ok(());
    }
    view.reserve_page()?;
    if view.is_shared_page(at.residence, at.page) {
        map_shared(rt, board, view, at, steps)
    } else {
        map_own(rt.alloc(), board, view, at, steps)
    }
}

/// Makes the pages of a place present, in ascending order. Nobody counts the steps.
pub fn touch<R: Wait + AllocGlobal, L: Ledger>(
    rt: &R,
    board: &mut Board,
    view: &mut View,
    place: &Place,
    blank: Blank,
) -> Result<Option<Reply>, NoMemory>
    requires name { blank.name ≡ L.name }
    requires parts { blank.parts ≡ L.parts }
    requires some { 0 < blank.parts }
    requires stands { CanGoOn board.old view.old }
    ensures { WentOn board.old board.new view.old view.new }
{
    residences_stand();
    board.history();
    let residence = match view.check_touch(place) {
        Ok(residence) => residence,
        Err(refusal) => return Ok(Some(Reply::Refused(refusal))),
    };
    let mut steps: Steps<L> = Steps::of(blank);
    let span = span_of(place.offset, place.len);
    for number in span.first..span.end {
        let page = PageId {
            object: place.object,
            page: number,
        };
        touch_page(
            rt,
            board,
            view,
            ResidencePage { residence, page },
            &mut steps,
        )?;
    }
    Ok(Some(Reply::Fine))
}
