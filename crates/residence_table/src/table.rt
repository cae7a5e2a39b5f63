//! The residences that stand.

ghost use Rattle.std.specs.Prelude.{◌≡◌, ◌<◌, ◌++◌, [], filter, find, position, map, not, length, option_copied, option_map, slice_get, IfSome, MatchResult, Some};
ghost use Rattle.std.specs.Borrow.{sem};
ghost use Rattle.load_model.specs.State.{Eager, residence_of};
ghost use Rattle.lx_model.specs.Reach.{is_among};
ghost use Rattle.residence_table.specs.Residences.{residences, unwritten_residences, unwritten, is_of_module, has_serial};

use crate::residence_row::ResidenceRow;
use lx_types::NoMemory;
use mod_graph::is_among;
use std::alloc::Global;
use std::marker::Model;

/// The residences that stand, by rising serial numbers, each with what its holder keeps beside it. There
/// are no more of them than a library has modules: a look-up goes over one after the other.
#[derive(Drop)]
pub struct ResidenceTable<T> {
    rows: Vec<ResidenceRow<T>>,
}

impl<T> Model for ResidenceTable<T> {
    ghost use Rattle.std.specs.Prelude.{List};
    ghost use Rattle.load_model.specs.State.{Residence};

    ghost Value = { List (Residence × T) };

    ghost view = { λ s. s.rows.items };
}

/// Whether a residence is of none of these modules.
fn stays_on<T>(gone: &[u32], row: &ResidenceRow<T>) -> bool
    ensures { result ≡ not (is_among gone.now row.now.0.«module») }
{
    !is_among(gone, row.module())
}

impl<T: Drop> ResidenceTable<T> {
    ghost use Rattle.residence_table.specs.TableLending.{lends_beside_at};

    /// Nothing is resident. It takes no memory.
    pub fn new(alloc: Global) -> ResidenceTable<T>
        ensures { result ≡ [] }
    {
        ResidenceTable {
            rows: Vec::new(alloc),
        }
    }

    /// The residences, the oldest first.
    pub fn rows(&self) -> &[ResidenceRow<T>]
        ensures { result.now ≡ self.now }
    {
        self.rows.as_slice()
    }

    /// The residence of module `m`.
    pub fn find(&self, m: u32) -> Option<&ResidenceRow<T>>
        ensures found { option_copied result ≡ find (is_of_module m) self.now }
        ensures residence { (e : Eager) → unwritten_residences e ≡ residences self.now →
            option_map (λ s. s.0) (option_copied result) ≡ option_map unwritten (residence_of e m) }
    {
        self.first_of(m)
    }

    /// The first of the residences that is one of module `m`.
    fn first_of(&self, m: u32) -> Option<&ResidenceRow<T>>
        ensures { option_copied result ≡ find (is_of_module m) self.now }
    {
        self.rows.iter().find(|row| row.module() == m)
    }

    /// The residence of a serial number.
    pub fn find_serial(&self, serial: u64) -> Option<&ResidenceRow<T>>
        ensures { option_copied result ≡ find (has_serial serial) self.now }
    {
        self.rows.iter().find(|row| row.serial() == serial)
    }

    /// Where in the table the residence of a serial number stands.
    pub fn place_of(&self, serial: u64) -> Option<usize>
        ensures place { result ≡ position (has_serial serial) self.now }
    {
        self.rows.iter().position(|row| row.serial() == serial)
    }

    /// The residence at a place.
    pub fn at(&self, place: usize) -> &ResidenceRow<T>
        requires { place < length self.now }
        ensures { Some result.now ≡ slice_get self.now place }
    {
        &self.rows[place]
    }

    /// What is kept beside the residence at a place.
    pub fn beside_mut(&mut self, place: usize) -> &mut T
        requires { place < length self.old }
        ensures* writes_back { sem 𝓛 (lends_beside_at T.row self.entry place result) }
        ensures value { Some result.now ≡ option_map (λ s. s.1) (slice_get self.old place) }
    {
        let row = &mut self.rows[place];
        row.beside_mut()
    }

    /// The residences that begin stand after those that stood. Where there is no memory nothing changes.
    pub fn begin(&mut self, mut newcomers: Vec<ResidenceRow<T>>) -> Result<(), NoMemory>
        ensures { MatchResult result (λ _. self.new ≡ self.old ++ newcomers.items) (λ _. self.new ≡ self.old) }
    {
        self.rows.append(&mut newcomers)?;
        Ok(())
    }

    /// The residences of these modules end. It takes no memory.
    pub fn end(&mut self, gone: &[u32])
        ensures { self.new ≡ filter (λ s. not (is_among gone.now s.0.«module»)) self.old }
    {
        self.rows.retain(|row| stays_on(gone, row));
    }
}
