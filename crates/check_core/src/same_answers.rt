//! Whether two commands are one, and whether two replies are.

ghost use Rattle.std.specs.Prelude.{◌≡◌, ◌↔◌, IsTrue};
ghost use Rattle.check_core.specs.Deeds.{IsToldByEntry, IsOfModule, IsOfPlace};

use crate::sameness::Same;
use load_model::{Command, Refusal, Reply};

impl Same for Command {
    fn is_same(&self, other: &Command) -> bool {
        match (self, other) {
            (Command::Start(one), Command::Start(another))
            | (Command::Load(one), Command::Load(another))
            | (Command::Free(one), Command::Free(another)) => one.is_same(another),
            (Command::Touch(one), Command::Touch(another))
            | (Command::Peek(one), Command::Peek(another))
            | (Command::Shared(one), Command::Shared(another)) => one.is_same(another),
            (Command::Write(one, bytes), Command::Write(another, others))
            | (Command::Debug(one, bytes), Command::Debug(another, others)) => {
                one.is_same(another) && bytes.is_same(others)
            }
            (Command::Query(one, key), Command::Query(another, entry)) => {
                one.is_same(another) && key.is_same(entry)
            }
            (Command::GetRes(one, ty, id), Command::GetRes(another, kind, number)) => {
                one.is_same(another) && *ty == *kind && *id == *number
            }
            (Command::Exit, Command::Exit) => true,
            _ => false,
        }
    }
}

// Whether both are the same want of a place, or the same failure of an initialisation, told by an entry.
fn same_told(one: &Refusal, other: &Refusal) -> bool
    ensures { IsTrue result ↔ (IsToldByEntry one.now × (one.now ≡ other.now)) }
{
    match (one, other) {
        (
            Refusal::ArenaFull {
                number,
                of,
                object,
                size,
            },
            Refusal::ArenaFull {
                number: n,
                of: m,
                object: o,
                size: bytes,
            },
        ) => *number == *n && *of == *m && *object == *o && *size == *bytes,
        (Refusal::InitFailed { number, by }, Refusal::InitFailed { number: n, by: m }) => *number
            == *n
            && *by == *m,
        _ => false,
    }
}

// Whether both are the same refusal of a module, by what it is or by what the process holds.
fn same_of_module(one: &Refusal, other: &Refusal) -> bool
    ensures { IsTrue result ↔ (IsOfModule one.now × (one.now ≡ other.now)) }
{
    match (one, other) {
        (Refusal::Ended, Refusal::Ended)
        | (Refusal::Worn, Refusal::Worn)
        | (Refusal::Started, Refusal::Started)
        | (Refusal::NoModule, Refusal::NoModule)
        | (Refusal::NotLibrary, Refusal::NotLibrary)
        | (Refusal::NotProgram, Refusal::NotProgram)
        | (Refusal::NoEntry, Refusal::NoEntry)
        | (Refusal::ForwardLoop, Refusal::ForwardLoop)
        | (Refusal::Gate286, Refusal::Gate286)
        | (Refusal::CountFull, Refusal::CountFull)
        | (Refusal::NotHeld, Refusal::NotHeld)
        | (Refusal::NotAttached, Refusal::NotAttached)
        | (Refusal::NoResource, Refusal::NoResource) => true,
        _ => false,
    }
}

// Whether both are the same refusal of a place.
fn same_of_place(one: &Refusal, other: &Refusal) -> bool
    ensures { IsTrue result ↔ (IsOfPlace one.now × (one.now ≡ other.now)) }
{
    match (one, other) {
        (Refusal::Range, Refusal::Range)
        | (Refusal::ReadOnly, Refusal::ReadOnly)
        | (Refusal::IsShared, Refusal::IsShared)
        | (Refusal::NotShared, Refusal::NotShared)
        | (Refusal::NotCode, Refusal::NotCode)
        | (Refusal::Invalid, Refusal::Invalid) => true,
        (Refusal::NotTouched { page }, Refusal::NotTouched { page: p }) => *page == *p,
        _ => false,
    }
}

impl Same for Refusal {
    fn is_same(&self, other: &Refusal) -> bool {
        same_told(self, other) || same_of_module(self, other) || same_of_place(self, other)
    }
}

impl Same for Reply {
    fn is_same(&self, other: &Reply) -> bool {
        match (self, other) {
            (Reply::Fine, Reply::Fine) => true,
            (Reply::Bytes(one), Reply::Bytes(another)) => one.is_same(another),
            (Reply::Address(one), Reply::Address(another)) => *one == *another,
            (Reply::Spot(one), Reply::Spot(another)) => one.is_same(another),
            (Reply::Refused(one), Reply::Refused(another)) => one.is_same(another),
            _ => false,
        }
    }
}
