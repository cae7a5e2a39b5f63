//! The names of a library's modules.

ghost use Rattle.std.specs.List.{AllByRecursion};
ghost use Rattle.check_model.specs.Told.{IsByte};
ghost use Rattle.transcript_laws.specs.TellsOne.{HasNames};

use mod_graph::Library;

// Numbers of a slice of bytes are below 256.
fn are_bytes(bytes: &[u8])
    ensures { AllByRecursion IsByte bytes.now }
{
    let _bytes = bytes;
}

/// A word of a transcript names one module at most.
pub(crate) fn has_names(lib: &Library)
    ensures { HasNames lib.now }
{
    for m in 0..lib.len() {
        are_bytes(lib.module(m).name().bytes());
    }
}
