//! What is kept of residences and pages after a free.

ghost use Rattle.std.specs.Prelude.{◌≡◌, ◌≤◌, ◌==◌, ◌&&◌, ◌++◌, ◌∷◌, [], List, All, nat_lt, filter, length, map, position};
ghost use Rattle.std.specs.List.{list_any};
ghost use Rattle.lx_types.specs.declared.parts.Parts.{Parts};
ghost use Rattle.load_model.specs.Modules.{Library};
ghost use Rattle.load_model.specs.State.{Process, reaches};
ghost use Rattle.load_model.specs.ProcessCounts.{AreCountsOf};
ghost use Rattle.load_model.specs.Views.{Mapped};
ghost use Rattle.process_pages.specs.ReachedResidences.{residence_in, residences_in, IsPlaced, AreApart, without_places};

use crate::mapped_page::MappedPage;
use crate::reached_residences::ReachedResidence;
use mod_refs::LoadCounts;

// Whether the process reaches the module of a residence, of so many modules.
fn is_reached(reached: &ReachedResidence, modules: u32, counts: &LoadCounts) -> bool
    requires { modules ≤ length counts.now.reached }
    ensures { (lib : Library) (p : Process) → AreCountsOf lib p counts.now
        → result ≡ (nat_lt (residence_in reached.now).«module» modules && reaches lib p (residence_in reached.now).«module») }
{
    let m = reached.residence.module();
    m < modules && counts.reaches(m)
}

/// Keeps the residences whose modules the process reaches, of so many modules.
pub fn keep_reached(residences: &mut Vec<ReachedResidence>, modules: u32, counts: &LoadCounts)
    requires { modules ≤ length counts.now.reached }
    ensures { (lib : Library) (p : Process) → AreCountsOf lib p counts.now
        → residences.new.items ≡ filter (λ s. nat_lt (residence_in s).«module» modules && reaches lib p (residence_in s).«module») residences.old.items }
{
    residences.retain(|reached| is_reached(reached, modules, counts));
}

// Whether a residence has a serial number.
fn has_serial(reached: &ReachedResidence, serial: u64) -> bool
    ensures { result ≡ ((residence_in reached.now).serial == serial) }
{
    reached.residence.serial() == serial
}

// The place of the residence of a serial number.
fn serial_place(residences: &[ReachedResidence], serial: u64) -> Option<usize>
    ensures { result ≡ position (λ s. (residence_in s).serial == serial) residences.now }
{
    residences
        .iter()
        .position(|reached| has_serial(reached, serial))
}

// Whether a page is of one of the residences.
fn is_kept(page: &MappedPage, residences: &[ReachedResidence]) -> bool
    ensures { result ≡ list_any (λ s. (residence_in s).serial == page.now.of.serial) residences.now }
{
    let serial = page.serial();
    residences.iter().any(|reached| has_serial(reached, serial))
}

// Keeps the pages of the residences.
fn keep_pages(pages: &mut Vec<MappedPage>, residences: &[ReachedResidence])
    ensures { pages.new.items ≡ filter (λ p. list_any (λ s. (residence_in s).serial == p.of.serial) residences.now) pages.old.items }
{
    pages.retain(|page| is_kept(page, residences));
}

// Takes the places of all pages away.
fn clear_places(residences: &mut [ReachedResidence])
    ensures { residences.new ≡ map without_places residences.old }
{
    for k in 0..residences.len() {
        residences[k].places.clear();
    }
}

// Puts a page at its place in the rows of its residence, where it is the first such page.
fn place_page(residences: &mut [ReachedResidence], page: &MappedPage, place: usize)
    ensures residences { residences_in residences.new ≡ residences_in residences.old }
    ensures placed { (lib : List Parts) (mapped : List Mapped) → length mapped ≡ place → AreApart (residences_in residences.old)
        → All (IsPlaced lib mapped) residences.old → All (IsPlaced lib (mapped ++ page.now ∷ [])) residences.new }
{
    if let Some(k) = serial_place(residences, page.serial()) {
        residences[k].places.put_first(page.page(), place);
    }
}

// Puts all pages at their places, in rows that have none.
fn place_pages(residences: &mut [ReachedResidence], pages: &[MappedPage])
    ensures residences { residences_in residences.new ≡ residences_in residences.old }
    ensures placed { (lib : List Parts) → AreApart (residences_in residences.old) → All (IsPlaced lib []) residences.old
        → All (IsPlaced lib pages.now) residences.new }
{
    for place in 0..pages.len() {
        place_page(residences, &pages[place], place);
    }
}

/// Keeps the pages of the residences, each at its place.
pub fn keep_places(residences: &mut [ReachedResidence], pages: &mut Vec<MappedPage>)
    ensures residences { residences_in residences.new ≡ residences_in residences.old }
    ensures pages { pages.new.items ≡ filter (λ p. list_any (λ s. (residence_in s).serial == p.of.serial) residences.old) pages.old.items }
    ensures placed { (lib : List Parts) → AreApart (residences_in residences.old) → All (IsPlaced lib pages.old.items) residences.old
        → All (IsPlaced lib pages.new.items) residences.new }
{
    keep_pages(pages, residences);
    clear_places(residences);
    place_pages(residences, pages.as_slice());
}
