//! A player of items in one thread.

ghost use Rattle.std.specs.Prelude.{◌≡◌, ◌≤◌, ◌<◌, [], ◌∷◌, ◌++◌, List, None, Ok, false, IfNone, IfOk, IfSome, length, option_copied, option_map};
ghost use Rattle.std.specs.Arc.{arc_value};
ghost use Rattle.lx_types.specs.declared.limits.TheConstants.{MAX_PROCESSES};
ghost use Rattle.load_model.specs.declared.deeds.Deed.TheVariants as deeds;
ghost use Rattle.session_model.specs.Merging as items;
ghost use Rattle.session_model.specs.Merging.{Item, is_fault};
ghost use Rattle.check_model.specs.Checks.{Judge};
ghost use Rattle.check_core.specs.ToldItems.{item_of};
ghost use Rattle.play_laws.specs.MappedPages.{accepted_in};
ghost use Rattle.check_play.specs.Standing.{IsStanding, StandsShown};
ghost use Rattle.check_play.specs.Playing.{StandsAlone, IsPlayedAlone, StandsTogether, IsNextAlone, PlaysItem, IsNextTogether, PlaysAmong, AreNewViews, IsJudgeOver};

use crate::deeds::play_deed;
use crate::faults::{ResidencePage, play_fault};
use crate::hands::Hands;
use crate::standing::{AttachedResidence, Standing};
use crate::steady::play_reply;
use crate::touches::play_touch;
use check_core::{ToldItem, ToldLine};
use check_model::CheckKind;
use load_model::{
    Command, Deed, Entry, Place, Reply, histories_grow, others_leave_alike, views_stand,
};
use lx_types::{MAX_PROCESSES, NoMemory};
use mod_graph::Library;
use page_fix::Steps;
use play_laws::mapped_pages_move;
use process_view::View;
use session_model::Line;
use std::alloc::Global;
use std::marker::Brand;
use std::sync::ledger::{Blank, Ledger};
use std::sync::{Arc, Wait};

/// A board, and the view of each process, in one thread.
#[derive(Drop)]
pub struct SessionPlayer<'a, R: Wait> {
    pub hands: Hands<'a, R>,
    pub standing: Standing,
    pub views: Vec<View>,
}

/// An item with its command, if it is for one, and with what its process does next that is for a command.
#[derive(Clone, Copy)]
pub struct NextItem<'a> {
    pub item: ToldItem<'a>,
    pub command: Option<&'a Command>,
    pub next: Option<ToldItem<'a>>,
}

// So many views of processes that have done nothing.
fn new_views(alloc: Global, lib: &Arc<Library>, processes: u32) -> Result<Vec<View>, NoMemory>
    requires { processes ≤ MAX_PROCESSES }
    ensures { IfOk result (λ views. AreNewViews (arc_value lib.now) processes views.items) }
{
    let mut views = Vec::new(alloc);
    for before in 0..processes {
        views.push(View::make(alloc, Arc::try_clone(lib)?, before + 1))?;
    }
    Ok(views)
}

// The place of the touch that a line accepts, if it accepts one.
fn accepted(told: &Line) -> Option<&Place>
    ensures { option_copied result ≡ accepted_in told.now.command told.now.reply }
{
    let Command::Touch(at) = &told.command else {
        return None;
    };
    match told.reply {
        Reply::Fine => Some(at),
        _ => None,
    }
}

// The page that a deed makes present, if it is a fault.
fn fault_page(deed: &Deed) -> Option<ResidencePage>
    ensures found { IfSome result (λ at. deed.now ≡ deeds.Fault at.residence.serial at.residence.«module» at.page) }
    ensures none { IfNone result (is_fault deed.now ≡ false) }
{
    match deed {
        Deed::Fault {
            serial,
            module,
            page,
        } => Some(ResidencePage {
            residence: AttachedResidence {
                serial: *serial,
                module: *module,
            },
            page: *page,
        }),
        _ => None,
    }
}

// Plays a line of a process.
fn play_line<R: Wait, L: Ledger>(
    hands: &Hands<'_, R>,
    standing: &Standing,
    view: &mut View,
    told: ToldLine<'_>,
    blank: Blank,
) -> Result<Option<CheckKind>, NoMemory>
    requires name { blank.name ≡ L.name }
    requires parts { blank.parts ≡ L.parts }
    requires some { 0 < blank.parts }
    requires kept { IsStanding standing.now }
    requires stands { StandsShown standing.now.board view.old }
    ensures { IfOk result (λ answer. (j : Judge) (before after : List Item)
        → StandsAlone j before (items.line told.entry.pid told.entry.line.now ∷ after) standing.now view.old told.entry.pid
        → IsPlayedAlone j before (items.line told.entry.pid told.entry.line.now) after standing.now view.new told.entry.pid answer) }
{
    match accepted(told.line) {
        Some(at) => play_touch::<R, L>(hands, standing, view, at, blank),
        None => play_reply(hands.alloc, view, told.line),
    }
}

// Plays an entry of a process; with it come its command, if it is for one, and what the process does next.
fn play_entry<R: Wait, L: Ledger>(
    hands: &Hands<'_, R>,
    standing: &mut Standing,
    view: &mut View,
    entry: (&Entry, Option<&Command>, Option<ToldItem<'_>>),
    blank: Blank,
) -> Result<Option<CheckKind>, NoMemory>
    requires name { blank.name ≡ L.name }
    requires parts { blank.parts ≡ L.parts }
    requires some { 0 < blank.parts }
    requires stands { IsNextAlone (items.entry entry.0.now) (option_copied entry.1) standing.old view.old }
    ensures { IfOk result (PlaysItem (items.entry entry.entry.0.now) (option_copied entry.entry.1) (option_map item_of entry.entry.2)
        standing.old view.old standing.new view.new) }
{
    let (told, command, next) = entry;
    let mut steps: Steps<L> = Steps::of(blank);
    if let Some(at) = fault_page(&told.deed) {
        return play_fault(hands, standing, view, (at, next), &mut steps);
    }
    match command {
        Some(command) => play_deed(hands, standing, view, (told, command), &mut steps),
        None => unreachable!(),
    }
}

// Plays an item of the process of a view.
fn play_own<R: Wait, L: Ledger>(
    hands: &Hands<'_, R>,
    standing: &mut Standing,
    view: &mut View,
    played: NextItem<'_>,
    blank: Blank,
) -> Result<Option<CheckKind>, NoMemory>
    requires name { blank.name ≡ L.name }
    requires parts { blank.parts ≡ L.parts }
    requires some { 0 < blank.parts }
    requires stands { IsNextAlone (item_of played.item) (option_copied played.command) standing.old view.old }
    ensures { IfOk result (PlaysItem (item_of played.entry.item) (option_copied played.entry.command) (option_map item_of played.entry.next)
        standing.old view.old standing.new view.new) }
{
    match played.item {
        ToldItem::Entry(told) => {
            let entry = (told.entry, played.command, played.next);
            play_entry::<R, L>(hands, standing, view, entry, blank)
        }
        ToldItem::Line(told) => play_line::<R, L>(hands, standing, view, told, blank),
    }
}

// Plays an item among the views of all processes.
fn play_among<R: Wait>(
    hands: &Hands<'_, R>,
    standing: &mut Standing,
    views: &mut [View],
    played: NextItem<'_>,
) -> Result<Option<CheckKind>, NoMemory>
    requires { IsNextTogether (item_of played.item) (option_copied played.command) standing.old views.old }
    ensures { IfOk result (PlaysAmong (item_of played.entry.item) (option_copied played.entry.command) (option_map item_of played.entry.next)
        standing.old views.old standing.new views.new) }
{
    histories_grow();
    others_leave_alike();
    views_stand();
    mapped_pages_move();
    let place = played.item.process() as usize - 1;
    play_own::<R, Brand>(hands, standing, &mut views[place], played, Blank::new(1))
}

impl<'a, R: Wait> SessionPlayer<'a, R> {
    /// A player that has done nothing, for so many processes over a library, where the initialisations of these pairs of a
    /// process and a module fail. It stands before all items, whatever they are.
    pub fn new(
        rt: &'a R,
        alloc: Global,
        lib: &Arc<Library>,
        processes: u32,
        failing: &[(u32, u32)],
    ) -> Result<SessionPlayer<'a, R>, NoMemory>
        requires { processes ≤ MAX_PROCESSES }
        ensures { IfOk result (λ player. (j : Judge) (after : List Item) → IsJudgeOver (arc_value lib.now) failing.now processes j
            → StandsTogether j [] after player.standing player.views.items) }
    {
        histories_grow();
        views_stand();
        mapped_pages_move();
        let standing = Standing::new(alloc, lib, failing)?;
        let views = new_views(alloc, lib, processes)?;
        Ok(SessionPlayer {
            hands: Hands { rt, alloc },
            standing,
            views,
        })
    }
}

impl<'a, R: Wait> check_core::Player for SessionPlayer<'a, R> {
    ghost stands = { λ p j before after. StandsTogether j before after p.standing p.views.items };

    fn play(
        &mut self,
        item: ToldItem<'_>,
        command: Option<&Command>,
        next: Option<ToldItem<'_>>,
    ) -> Result<Option<CheckKind>, NoMemory> {
        let played = NextItem {
            item,
            command,
            next,
        };
        let views = self.views.as_mut_slice();
        play_among(&self.hands, &mut self.standing, views, played)
    }
}
