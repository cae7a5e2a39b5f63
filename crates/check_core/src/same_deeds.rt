//! Whether two deeds of processes are one.

ghost use Rattle.std.specs.Prelude.{◌≡◌, ◌↔◌, IsTrue};
ghost use Rattle.check_core.specs.Deeds.{IsEntering, IsFailing, IsLeaving, IsFaulting, IsWriting, IsReading};

use crate::sameness::Same;
use load_model::Deed;

// Whether both are one start or one load, which was done or had no place.
fn same_entering(one: &Deed, other: &Deed) -> bool
    ensures { IsTrue result ↔ (IsEntering one.now × (one.now ≡ other.now)) }
{
    match (one, other) {
        (
            Deed::Enter {
                how,
                module,
                fresh,
                calls,
            },
            Deed::Enter {
                how: way,
                module: m,
                fresh: begun,
                calls: called,
            },
        ) => how.is_same(way) && *module == *m && fresh.is_same(begun) && calls.is_same(called),
        (
            Deed::Full {
                how,
                module,
                of,
                object,
                size,
            },
            Deed::Full {
                how: way,
                module: m,
                of: by,
                object: number,
                size: bytes,
            },
        ) => {
            how.is_same(way) && *module == *m && *of == *by && *object == *number && *size == *bytes
        }
        _ => false,
    }
}

// Whether both are one start or one load whose initialisation failed.
fn same_failing(one: &Deed, other: &Deed) -> bool
    ensures { IsTrue result ↔ (IsFailing one.now × (one.now ≡ other.now)) }
{
    match (one, other) {
        (
            Deed::Failed {
                how,
                module,
                by,
                fresh,
                calls,
                gone,
            },
            Deed::Failed {
                how: way,
                module: m,
                by: k,
                fresh: begun,
                calls: called,
                gone: ended,
            },
        ) => {
            how.is_same(way)
                && *module == *m
                && *by == *k
                && fresh.is_same(begun)
                && calls.is_same(called)
                && gone.is_same(ended)
        }
        _ => false,
    }
}

// Whether both are one free or one exit.
fn same_leaving(one: &Deed, other: &Deed) -> bool
    ensures { IsTrue result ↔ (IsLeaving one.now × (one.now ≡ other.now)) }
{
    match (one, other) {
        (
            Deed::Free {
                module,
                calls,
                gone,
            },
            Deed::Free {
                module: m,
                calls: called,
                gone: ended,
            },
        ) => *module == *m && calls.is_same(called) && gone.is_same(ended),
        (
            Deed::Exit { calls, gone },
            Deed::Exit {
                calls: called,
                gone: ended,
            },
        ) => { calls.is_same(called) && gone.is_same(ended) }
        _ => false,
    }
}

// Whether both are the fault of one page.
fn same_fault(one: &Deed, other: &Deed) -> bool
    ensures { IsTrue result ↔ (IsFaulting one.now × (one.now ≡ other.now)) }
{
    match (one, other) {
        (
            Deed::Fault {
                serial,
                module,
                page,
            },
            Deed::Fault {
                serial: number,
                module: m,
                page: p,
            },
        ) => *serial == *number && *module == *m && page.is_same(p),
        _ => false,
    }
}

// Whether both write the same, to data or to code.
fn same_writing(one: &Deed, other: &Deed) -> bool
    ensures { IsTrue result ↔ (IsWriting one.now × (one.now ≡ other.now)) }
{
    match (one, other) {
        (
            Deed::Write {
                serial,
                module,
                object,
                offset,
                bytes,
            },
            Deed::Write {
                serial: s,
                module: m,
                object: o,
                offset: at,
                bytes: written,
            },
        )
        | (
            Deed::Debug {
                serial,
                module,
                object,
                offset,
                bytes,
            },
            Deed::Debug {
                serial: s,
                module: m,
                object: o,
                offset: at,
                bytes: written,
            },
        ) => {
            *serial == *s
                && *module == *m
                && *object == *o
                && *offset == *at
                && bytes.is_same(written)
        }
        _ => false,
    }
}

// Whether both read the same bytes, which all share.
fn same_reading(one: &Deed, other: &Deed) -> bool
    ensures { IsTrue result ↔ (IsReading one.now × (one.now ≡ other.now)) }
{
    match (one, other) {
        (
            Deed::Shared {
                serial,
                module,
                object,
                offset,
                bytes,
            },
            Deed::Shared {
                serial: s,
                module: m,
                object: o,
                offset: at,
                bytes: read,
            },
        ) => {
            *serial == *s && *module == *m && *object == *o && *offset == *at && bytes.is_same(read)
        }
        _ => false,
    }
}

impl Same for Deed {
    fn is_same(&self, other: &Deed) -> bool {
        same_entering(self, other)
            || same_failing(self, other)
            || same_leaving(self, other)
            || same_fault(self, other)
            || same_writing(self, other)
            || same_reading(self, other)
    }
}
