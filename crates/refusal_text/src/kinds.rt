//! The kinds of faults and refusals that have few fields or none: the word by which each is told, and what it means to a reader.

ghost use Rattle.std.specs.Prelude.{◌≡◌};
ghost use Rattle.answer_model.specs.CheckAnswer.{check_kind};
ghost use Rattle.answer_model.specs.FileRefusals.{placed, lx_kind, def_kind};
ghost use Rattle.answer_model.specs.ResourceRefusals.{bind_text, res_text};
ghost use Rattle.answer_model.specs.SessionRefusals.{session_kind};

use check_model::CheckKind;
use def_model::DefKind;
use lx_types::LxKind;
use res_model::{BindRefusal, ResRefusal};
use session_model::SessionKind;

/// A `match` with a row for each kind.
#[macro_export]
macro_rules! table {
    ($kind:expr; $($row:pat => $told:expr;)+) => { match $kind { $($row => $told),+ } };
}

/// Of a module.
pub fn lx_kind(kind: LxKind) -> (&'static str, &'static str)
    ensures { result.0.now ≡ lx_kind kind }
{
    table! { kind;
        LxKind::Signature => ("Signature", "no LX header stands where one has to");
        LxKind::Short => ("Short", "something is cut off there: the file ends too early, or a length before it is wrong");
        LxKind::Field => ("Field", "a field of the header has a value that lx does not take");
        LxKind::TooMany => ("TooMany", "a module has at most 65,536 pages and 1,024 objects");
        LxKind::Object => ("Object", "an object names pages that the page table does not have");
        LxKind::PageKind => ("PageKind", "a page has flags over 3");
        LxKind::PageData => ("PageData", "a page's data is not within the file, or is longer than a page");
        LxKind::TooLong => ("TooLong", "iterated data gives more than a page");
        LxKind::NameTable => ("NameTable", "the resident name table does not begin with the module's name");
        LxKind::ImportTable => ("ImportTable", "an imported module has an empty name");
        LxKind::EntryTable => ("EntryTable", "an entry is of no known type, or of an object or a module that is not there");
        LxKind::FixTable => ("FixTable", "the fixup records of a page end before they begin, or past the file's end");
        LxKind::BadSource => ("BadSource", "a fixup has a source that does not exist, or begins a chain");
        LxKind::BadTarget => ("BadTarget", "a fixup's target is not there");
        LxKind::Straddle => ("Straddle", "a fixup has no byte in its page");
    }
}

/// Of a definition file.
pub fn def_kind(kind: DefKind) -> (&'static str, &'static str)
    ensures { result.0.now ≡ def_kind kind }
{
    table! { kind;
        DefKind::Token => ("Token", "there are bytes that are no word, number or text: names with other signs stand in quotes, as '_f@8'");
        DefKind::Statement => ("Statement", "a statement has to begin there: a name that is a word of the format stands in quotes, as 'Data'");
        DefKind::Expected => ("Expected", "something is missing before what stands there, or a name is empty");
        DefKind::Number => ("Number", "the number is not allowed there: ordinals are 1 to 65,535, a base is a multiple of 65,536");
        DefKind::Conflict => ("Conflict", "the word contradicts one before it in the same list: take one of them away");
        DefKind::Twice => ("Twice", "the statement stands a second time: take one of them away");
        DefKind::TooLong => ("TooLong", "a name or a text has more than 255 bytes: shorten it");
    }
}

/// Of a session.
pub fn session_kind(kind: SessionKind) -> (&'static str, &'static str)
    ensures { result.0.now ≡ session_kind kind }
{
    table! { kind;
        SessionKind::Byte => ("Byte", "a line has a byte that is neither a tab nor one from 20h to 7Eh: remove it");
        SessionKind::Statement => ("Statement", "a line begins with take, build, failing, process or a command: start, load, free, touch, peek, shared, write, debug, query, getres or exit");
        SessionKind::Count => ("Count", "the line has more or fewer words than it wants, or a word over 255 bytes");
        SessionKind::Number => ("Number", "a number is not allowed there, or is none");
        SessionKind::Hex => ("Hex", "the bytes are 1 to 4,096 pairs of hexadecimal digits");
        SessionKind::Order => ("Order", "take, build and failing stand before the first process, the numbers of processes rise from 1 to 16, and commands stand below a process");
        SessionKind::TooMany => ("TooMany", "a process has at most 1,024 commands: give the others to another one");
    }
}

/// Of a transcript that is judged against a session.
pub fn check_kind(kind: CheckKind) -> (&'static str, &'static str)
    ensures { result.0.now ≡ check_kind kind }
{
    table! { kind;
        CheckKind::Text => ("Text", "no transcript goes on with this line: a word, a number or the line's end is another, or lines are missing before it or after the last");
        CheckKind::Scripts => ("Scripts", "the processes are not those of the session: it has a script for each, by the same numbers and in the same order");
        CheckKind::Front => ("Front", "the number after at is how many entries were made before the line: within a process it never falls, and it is at most the number of all");
        CheckKind::Command => ("Command", "the next command of the process's script is another one, or there is none; of the last line, commands are left that nothing was told of");
        CheckKind::Refused => ("Refused", "the process may not ask for this here: of what was done before, what it names is not there, or the loader refuses it, which has its line below process");
        CheckKind::Entry => ("Entry", "the loader does something else here: another module, serial number, base, call or byte, or a line more or less");
        CheckKind::Fault => ("Fault", "the page had its fault before, or the process does not go on with its first touch of the page");
        CheckKind::Touch => ("Touch", "a page is used that nobody made present: it had no fault, or the process has not touched it");
        CheckKind::Reply => ("Reply", "the process is answered something else here");
        CheckKind::Count => ("Count", "a number of the last line is not how many processes, entries or faults are told above it");
    }
}

/// Of a resource file, and its place.
pub fn res_fault(refusal: ResRefusal) -> (usize, &'static str, &'static str)
    ensures { placed result.0 result.1.now ≡ res_text refusal }
{
    table! { refusal;
        ResRefusal::Short { at } => (at, "Short", "the file ends within an item: it is cut off, or the length of the item's data is wrong");
        ResRefusal::BadItem { at } => (at, "BadItem", "FFh has to stand there: before an item's type, or before its identifier");
        ResRefusal::Twice { at } => (at, "Twice", "an item before this one has its type and its identifier: take one of them away");
    }
}

/// Of a module to which items are to be bound.
pub fn bind_kind(refusal: BindRefusal) -> (&'static str, &'static str)
    ensures { result.0.now ≡ bind_text refusal }
{
    table! { refusal;
        BindRefusal::HasResources => ("HasResources", "the module has resources, and bind adds them to modules that have none: take it as it was before");
        BindRefusal::TooMany => ("TooMany", "with the items the module has more than 65,536 pages or 1,024 objects: bind fewer");
        BindRefusal::TooLarge => ("TooLarge", "with the items the file has more than 16,777,216 bytes: bind fewer");
    }
}
