//! One line of a transcript.

ghost use Rattle.std.specs.Prelude.{◌≡◌, IfOk};
ghost use Rattle.check_model.specs.Told.{AreCounts, count_words};
ghost use Rattle.transcript_read.specs.Words.{left_of};
ghost use Rattle.transcript_read.specs.Taken.{Tells};
ghost use Rattle.transcript_read.specs.Rows.{Any, entry_row, history_row};
ghost use Rattle.transcript_read.specs.Ranges.{IsBareEntry};
ghost use Rattle.transcript_lines.specs.Lines.{IsProcess, process_words};
ghost use Rattle.transcript_read.specs.TellsLine.{TellsLine};

use crate::cursor::Words;
use crate::deeds::deed;
use crate::inner::{call, fresh, gone};
use crate::modules::ModuleNames;
use crate::steady::steady;
use check_model::Counts;
use load_model::Deed;
use lx_types::NoMemory;
use std::alloc::Global;
use transcript_lines::TranscriptLine;

/// An entry's first line.
#[derive(Drop)]
pub(crate) struct BareEntry {
    number: u64,
    process: u32,
    deed: Deed,
}

fn history(words: Words<'_>) -> Option<()>
    ensures { Tells history_row Any result (left_of words.entry) }
{
    let mut words = words;
    words.known(b"history");
    words.ending(())
}

fn entry(
    alloc: Global,
    words: Words<'_>,
    names: &ModuleNames<'_>,
) -> Result<Option<BareEntry>, NoMemory>
    ensures { IfOk result (λ told. Tells (entry_row names.now) (IsBareEntry names.now) told (left_of words.entry)) }
{
    let mut words = words;
    let number = words.count();
    let process = words.process();
    // (most lines are none, and need not be tried as each deed)
    if words.has_stopped() {
        return Ok(None);
    }
    let Some(deed) = deed(alloc, words, names)? else {
        return Ok(None);
    };
    Ok(Some(BareEntry {
        number,
        process,
        deed,
    }))
}

fn process(words: Words<'_>) -> Option<u32>
    ensures { Tells process_words IsProcess result (left_of words.entry) }
{
    let mut words = words;
    words.known(b"process");
    let pid = words.script();
    words.ending(pid)
}

fn summary(words: Words<'_>) -> Option<Counts>
    ensures { Tells count_words AreCounts result (left_of words.entry) }
{
    let mut words = words;
    words.known(b"summary");
    words.known(b"processes");
    let processes = words.count();
    words.known(b"entries");
    let entries = words.count();
    words.known(b"faults");
    let faults = words.count();
    words.ending(Counts {
        processes,
        entries,
        faults,
    })
}

/// The line that these bytes are without its end, in time and memory linear in them. `None` comes exactly where no line of
/// a transcript over the library has them; a line tells one thing.
pub fn read_line(
    alloc: Global,
    names: &ModuleNames<'_>,
    line: &[u8],
) -> Result<Option<TranscriptLine>, NoMemory>
    ensures { IfOk result (λ told. TellsLine names.now told line.now) }
{
    let words = Words::of(line);
    if let Some(
        BareEntry {
            number,
            process,
            deed,
        },
    ) = entry(alloc, words, names)?
    {
        return Ok(Some(TranscriptLine::Entry {
            number,
            process,
            deed,
        }));
    }
    if let Some(line) = steady(alloc, words)? {
        return Ok(Some(TranscriptLine::Steady(line)));
    }
    if let Some(call) = call(words, names) {
        return Ok(Some(TranscriptLine::Call(call)));
    }
    if let Some(fresh) = fresh(alloc, words, names)? {
        return Ok(Some(TranscriptLine::New(fresh)));
    }
    if let Some(gone) = gone(words, names) {
        return Ok(Some(TranscriptLine::Gone(gone)));
    }
    if let Some(pid) = process(words) {
        return Ok(Some(TranscriptLine::Process(pid)));
    }
    if let Some(counts) = summary(words) {
        return Ok(Some(TranscriptLine::Summary(counts)));
    }
    let Some(()) = history(words) else {
        return Ok(None);
    };
    Ok(Some(TranscriptLine::History))
}
