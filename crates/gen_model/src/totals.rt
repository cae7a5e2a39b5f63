//! What was made, in numbers.

ghost use Rattle.std.specs.Prelude.{◌≡◌, IfOk};
ghost use Rattle.gen_model.specs.Sums.{totals_line};

use lx_types::{Bytes, NoMemory, Seq};
use std::alloc::Global;

/// What was made, in all.
#[derive(Clone, Copy)]
pub struct Totals {
    pub modules: u32,
    /// Pages of 4,096 bytes.
    pub pages: u64,
    /// Record sources; a reference on two pages counts on each.
    pub sources: u64,
    /// The sum of all 32-bit words of all pages in memory, modulo 2^32.
    pub sum: u32,
}

impl Totals {
    /// `gen N modules N pages P sources S sum X`
    pub fn line(&self, alloc: Global) -> Result<Bytes, NoMemory>
        ensures { IfOk result (λ line. line ≡ totals_line self.now) }
    {
        let Totals {
            modules,
            pages,
            sources,
            sum,
        } = *self;
        let line = format!(in alloc;
            "gen {modules} modules {modules} pages {pages} sources {sources} sum {sum}\n"
        )?;
        Ok(Seq::from_vec(line.into_bytes()))
    }
}
