//! Refusals of what files come to.
ghost use Rattle.answer_model.specs.LinkAnswer.{link_text};
ghost use Rattle.answer_model.specs.SessionRefusals.{library_text};
ghost use Rattle.std.specs.Prelude.{◌≡◌, []};
ghost use Rattle.refusal_text.specs.Refusals.{cause_text, shown_before, status_of};
ghost use Rattle.file_commands.specs.Refusals.{Gives, RefusesBy, RefusesImageAs, RefusesUnder, image_text_of, said_in};

use crate::told::Told;
use image_pages::ImageRefusal;
use link_model::LinkRefusal;
use lx_model::LibraryRefusal;
use lx_types::{Fail, NoMemory};
use refusal_text::{Cause, LinkFiles, Refused};
use std::alloc::Global;

/// What is said of a refused step.
pub fn in_full(alloc: Global, why: Fail<Refused>) -> Result<Told, NoMemory>
    ensures { Gives why (said_in result) }
{
    match why {
        Fail::Said(refused) => match refused.said(alloc) {
            Ok(said) => Ok(Told::of(said, refused)),
            Err(NoMemory) => Err(NoMemory),
        },
        Fail::NoMemory => Err(NoMemory),
    }
}

/// What is said of a cause, under a name.
pub fn refused_as(alloc: Global, name: &str, cause: Cause) -> Result<Told, NoMemory>
    ensures { RefusesUnder name.now cause (said_in result) }
{
    match Refused::of(alloc, name, cause) {
        Ok(refused) => in_full(alloc, Fail::Said(refused)),
        Err(NoMemory) => Err(NoMemory),
    }
}

/// What is said of a refused link, under a name.
pub fn unlinked(
    alloc: Global,
    name: &str,
    why: Fail<LinkRefusal>,
    files: LinkFiles,
) -> Result<Told, NoMemory>
    ensures { RefusesBy link_text name.now why (said_in result) }
{
    match why {
        Fail::Said(refusal) => refused_as(alloc, name, Cause::Unlinked { refusal, files }),
        Fail::NoMemory => Err(NoMemory),
    }
}

/// What is said of modules that are no library, under a name.
pub fn ungathered(alloc: Global, name: &str, why: Fail<LibraryRefusal>) -> Result<Told, NoMemory>
    ensures { RefusesBy library_text name.now why (said_in result) }
{
    match why {
        Fail::Said(refusal) => refused_as(alloc, name, Cause::Ungathered(refusal)),
        Fail::NoMemory => Err(NoMemory),
    }
}

fn image_cause(refusal: ImageRefusal, files: LinkFiles) -> Cause
    ensures text { cause_text result ≡ image_text_of refusal }
    ensures alone { shown_before result ≡ [] }
    ensures status { status_of result ≡ 1 }
{
    match refusal {
        ImageRefusal::Link(refusal) => Cause::Unlinked { refusal, files },
        ImageRefusal::NoModule => Cause::Imports { files },
        ImageRefusal::ArenaFull { object, size } => Cause::ArenaFull { object, size },
    }
}

/// The same of a link that is shown in memory.
pub fn unshown(
    alloc: Global,
    name: &str,
    why: Fail<ImageRefusal>,
    files: LinkFiles,
) -> Result<Told, NoMemory>
    ensures { RefusesImageAs name.now why (said_in result) }
{
    match why {
        Fail::Said(refusal) => refused_as(alloc, name, image_cause(refusal, files)),
        Fail::NoMemory => Err(NoMemory),
    }
}
