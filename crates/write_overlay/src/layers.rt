//! What was written to objects, kept by page.

ghost use Rattle.std.specs.Prelude.{◌≡◌, ◌≤◌, ◌<◌, ◌+◌, ◌/◌, ◌%◌, ◌++◌, ◌∷◌, [], ℕ, List, OnOk, MatchResult, length, option_copied, slice_index};
ghost use Rattle.std.specs.Map.{lookup};
ghost use Rattle.load_model.specs.State.{Written};
ghost use Rattle.write_overlay.specs.Laid.{bytes_under};
ghost use Rattle.write_overlay.specs.Layered.{Lays, IsMade, AreMade, is_page_at, byte_laid, byte_over, run_under};

use crate::layer::Layer;
use crate::write::Write;
use lx_types::{NoMemory, PAGE_LEN};
use std::alloc::Global;
use std::collections::HashMap;
use std::marker::Model;

/// What was written to objects: of each byte only what was written last, in the pages that were written. A write
/// costs its length, and a read what it reads, however many writes there were.
pub struct Layers {
    alloc: Global,
    pages: HashMap<(u32, usize), Layer>,
}

// Dropped by a call, as lists are (`Seq`).
impl Drop for Layers {
    fn drop(self) {
        let Layers { alloc: _, pages } = self;
        drop(pages);
    }
}

impl Model for Layers {
    ghost use Rattle.write_overlay.specs.Layered.{Pages};

    ghost Value = { Pages };

    ghost view = { λ l. l.pages.entries };
}

impl Layers {
    /// Nothing was written. It takes no memory.
    pub fn new(alloc: Global) -> Layers
        ensures { Lays result [] }
    {
        Layers {
            alloc,
            pages: HashMap::new(alloc),
        }
    }

    /// What was written to a page of an object.
    fn page(&self, object: u32, page: usize) -> Option<&Layer>
        ensures { option_copied result ≡ lookup (is_page_at (object, page)) self.now }
    {
        self.pages.get(&(object, page))
    }

    /// Makes a page of an object, where it was not written yet.
    fn make_page(&mut self, object: u32, page: usize) -> Result<(), NoMemory>
        ensures made { OnOk result (IsMade self.new object page) }
        ensures stay { (q p : ℕ) → IsMade self.old q p → IsMade self.new q p }
        ensures same { (q x : ℕ) → byte_laid self.new q x ≡ byte_laid self.old q x }
    {
        if !self.pages.contains_key(&(object, page)) {
            self.pages.insert((object, page), Layer::new(self.alloc)?)?;
        }
        Ok(())
    }

    /// Makes the pages that bytes from an offset on cover.
    fn make_pages(&mut self, object: u32, offset: u32, bytes: &[u8]) -> Result<(), NoMemory>
        ensures made { OnOk result (AreMade self.new object offset (length bytes.now)) }
        ensures same { (q x : ℕ) → byte_laid self.new q x ≡ byte_laid self.old q x }
    {
        let mut done = 0;
        while done < bytes.len() {
            let at = offset as usize + done;
            self.make_page(object, at / PAGE_LEN)?;
            done += (PAGE_LEN - at % PAGE_LEN).min(bytes.len() - done);
        }
        Ok(())
    }

    /// Puts a run that lies in one page.
    fn put_run(&mut self, object: u32, at: usize, run: &[u8])
        requires made { IsMade self.old object (at / PAGE_LEN) }
        requires fits { at % PAGE_LEN + length run.now ≤ PAGE_LEN }
        ensures stay { (q p : ℕ) → IsMade self.old q p → IsMade self.new q p }
        ensures laid { (q x : ℕ) → byte_laid self.new q x ≡ run_under object at run.now q x (byte_laid self.old q x) }
    {
        let Some(layer) = self.pages.get_mut(&(object, at / PAGE_LEN)) else {
            unreachable!()
        };
        layer.put(at % PAGE_LEN, run);
    }

    /// Puts bytes into pages that were made.
    fn put_made(&mut self, object: u32, offset: u32, bytes: &[u8])
        requires { AreMade self.old object offset (length bytes.now) }
        ensures { (q x : ℕ) → byte_laid self.new q x ≡ run_under object offset bytes.now q x (byte_laid self.old q x) }
    {
        let mut done = 0;
        while done < bytes.len() {
            let at = offset as usize + done;
            let len = (PAGE_LEN - at % PAGE_LEN).min(bytes.len() - done);
            self.put_run(object, at, &bytes[done..done + len]);
            done += len;
        }
    }

    /// Puts a write over those before it. Where there is no memory nothing that was written changes.
    pub fn put(&mut self, write: &Write) -> Result<(), NoMemory>
        ensures { MatchResult result
            (λ _. (writes : List Written) → Lays self.old writes → Lays self.new (writes ++ write.now ∷ []))
            (λ _. (writes : List Written) → Lays self.old writes → Lays self.new writes) }
    {
        self.make_pages(write.object(), write.offset(), write.bytes())?;
        self.put_made(write.object(), write.offset(), write.bytes());
        Ok(())
    }

    /// Lays what was written to an object over its bytes from `offset` on. It takes no memory.
    pub fn lay(&self, object: u32, offset: u32, into: &mut [u8])
        ensures { (writes : List Written) → Lays self.now writes → into.new ≡ bytes_under writes object offset into.old }
    {
        self.lay_over(object, offset, into);
    }

    /// The same, byte by byte.
    fn lay_over(&self, object: u32, offset: u32, into: &mut [u8])
        ensures length { length into.new ≡ length into.old }
        ensures bytes { (k : ℕ) → k < length into.old → slice_index into.new k ≡ byte_over self.now object (offset + k) (slice_index into.old k) }
    {
        let mut done = 0;
        while done < into.len() {
            let at = offset as usize + done;
            let len = (PAGE_LEN - at % PAGE_LEN).min(into.len() - done);
            if let Some(layer) = self.page(object, at / PAGE_LEN) {
                layer.lay(at % PAGE_LEN, done, len, into);
            }
            done += len;
        }
    }
}
