//! A reading before its first token.

ghost use Rattle.std.specs.Prelude.{◌≡◌};
ghost use Rattle.def_model.specs.Draft.{fresh};
ghost use Rattle.def_file.specs.Whole.{WholeReading};

use def_model::{Draft, Place, Reading};
use lx_types::Seq;
use std::alloc::Global;

/// Before the first token.
pub fn fresh(alloc: Global) -> Reading
    ensures value { result ≡ fresh }
    ensures whole { WholeReading result }
{
    Reading {
        draft: Draft {
            kind: None,
            name: None,
            init_each: None,
            term_each: None,
            about: None,
            stack: None,
            heap: None,
            base: None,
            code: None,
            plain: None,
            segs: Seq::new(alloc),
            exports: Seq::new(alloc),
            imports: Seq::new(alloc),
        },
        place: Place::Statement,
    }
}
