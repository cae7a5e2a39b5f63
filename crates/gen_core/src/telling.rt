//! From a number of modules to what is told of them.

ghost use Rattle.std.specs.Prelude.{◌≡◌, ◌<◌, ◌≤◌, IfOk};
ghost use Rattle.gen_model.specs.Sums.{AreTotals};
ghost use Rattle.gen_core.specs.Fixing.{library_words, total};

use crate::fixing::sum_of_words;
use crate::laws::words_are_meant;
use crate::linking::gather;
use crate::placing::bases;
use gen_model::Totals;
use lx_types::{Bases, NoMemory};
use page_fix::{OwnLibrary, Steps};
use std::alloc::Global;
use std::marker::Brand;
use std::sync::ledger::{Blank, Ledger};

// The sum of all words, over the ledger of a blank: nobody asks how many sources were put.
fn sum_over<L: Ledger>(
    alloc: Global,
    lib: &OwnLibrary,
    bases: &Bases,
    blank: Blank,
) -> Result<u32, NoMemory>
    requires name { blank.name ≡ L.name }
    requires parts { blank.parts ≡ L.parts }
    requires some { 0 < blank.parts }
    ensures { IfOk result (λ sum. sum ≡ total (library_words lib.now bases.now)) }
{
    let mut steps = Steps::<L>::of(blank);
    sum_of_words(alloc, lib, bases, &mut steps)
}

/// What is told of the modules G1 to G`count`: they are linked from their object modules and definition files, read back from
/// the linked files and gathered, their objects take their places in turn, each page is fixed there, and the words of all pages
/// are added ("32-bit Linear eXecutable Module Format": "Object Page Table", "Fixup Record Table").
pub fn totals(alloc: Global, count: u32) -> Result<Totals, NoMemory>
    requires first { 1 ≤ count }
    requires last { count ≤ 64 }
    ensures { IfOk result (AreTotals count) }
{
    words_are_meant();
    let gathered = gather(alloc, count)?;
    let bases = bases(alloc, &gathered.library)?;
    let library = OwnLibrary::of(gathered.library);
    Ok(Totals {
        modules: library.library().len(),
        pages: gathered.pages,
        sources: gathered.sources,
        sum: sum_over::<Brand>(alloc, &library, &bases, Blank::new(1))?,
    })
}
