//! What the program `lx` does: one call over real files and standard output, and its status.
#![tactic(auto)]

ghost use Rattle.std.specs.Io.KnownBytes.{Appends};
ghost use Rattle.std.specs.Prelude.{◌≡◌, ◌⊎◌, is_some, map, option_copied, string_bytes};
ghost use Rattle.std.specs.Process.{exit_status};
ghost use Rattle.lx_ports.specs.Counts.{Rose};
ghost use Rattle.lx_start.specs.Ending.{EndsWith};
ghost use Rattle.lx_start.specs.Telling.{asks_help, asks_page, help, told_of};

mod heard;

use crate::heard::{Answer, Heard};
use answer_model::{DONE, NO_MEMORY, WRITE_FAILED};
use diagnostics::{Ending, Look, Tell, Watched, help_of, tell_on};
use lx_ports::{DiskFiles, Files, NoGate, Sink, StdSink};
use lx_tool::{lx_main, put_whole};
use std::alloc::{AllocError, Global};
use std::io::{Eprint, ErrorKind, Read};
use std::process::ExitCode;
use std::rt::Runtime;
use std::sync::Wait;
use std::thread::Threads;
use std::{env, fs, io, rt};

/// What `--help` puts: a line for each command.
const HELP: &str = "\
lx image OBJ BASE         shows an object file's objects in memory, as: lx image a.obj 10000000
lx link OUT DEF IN ..     links object files and libraries, DEF may be -, as: lx link d.dll d.def a.obj b.lib
lx implib OUT IN ..       writes an import library of modules and definition files, as: lx implib d.lib d.def
lx bind OUT MODULE RES    adds the items of a resource file to a module, as: lx bind d2.dll d.dll d.res
lx gen N PREFIX           makes N modules and a session of them, to try the others on, as: lx gen 2 g
lx run FILE               runs the processes of a session in threads, as: lx run d.ses
lx check FILE TRANSCRIPT  judges a text as the transcript of a run of a session, as: lx check d.ses d.txt
lx dump FILE              shows what is in a module, as: lx dump d.dll
lx map DEF IN ..          shows where all stands that link would place, as: lx map d.def a.obj b.lib
lx memory MODULE ..       shows what modules hold in memory, as: lx memory p.exe d.dll
lx show FILE              shows what is in a file, part by part, as: lx show a.obj
lx COMMAND --help         says more of one of them
";

/// What `--version` puts.
const VERSION: &str = "lx 0.1\n";

/// The words after the program's name. Words that are not text are no command, so there are none.
fn words<R: Runtime + AllocGlobal>(rt: &R) -> io::Result<Vec<String>> {
    match env::args(rt) {
        Ok(words) => words.skip(1).collect(rt.alloc()).map_err(io::Error::from),
        Err(error) if error.kind() == ErrorKind::OutOfMemory => Err(error),
        Err(_) => Ok(Vec::new(rt.alloc())),
    }
}

/// How many bytes are looked at of a file that is written over.
const LOOKED_AT: u64 = 4_096;

/// Standard error, for lines to a reader, and the disk, as far as they speak of it. What standard error does not take is dropped.
#[derive(Drop)]
struct Reader<'a, R> {
    rt: &'a R,
    answer: &'a Answer,
}

impl<'a, R> Reader<'a, R> {
    fn new(rt: &'a R, answer: &'a Answer) -> Reader<'a, R> {
        Reader { rt, answer }
    }
}

impl<R: Eprint> Tell for Reader<'_, R> {
    fn tell(&mut self, text: &str) {
        let _ = eprint!(self.rt; "{text}");
    }
}

impl<R: rt::Files> Look for Reader<'_, R> {
    fn front(&self, alloc: Global, name: &str) -> Option<Vec<u8>> {
        // (another file than a regular one, as a pipe, may not be read without waiting)
        if !fs::metadata(self.rt, name).ok()?.is_file() {
            return None;
        }
        let mut bytes = Vec::new(alloc);
        let file = fs::open(self.rt, name).ok()?;
        file.take(LOOKED_AT).read_to_end(&mut bytes).ok()?;
        Some(bytes)
    }

    fn is_there(&self, name: &str) -> bool {
        fs::metadata(self.rt, name).is_ok()
    }

    fn answer(&self, alloc: Global) -> Option<String> {
        let error = self.answer.get()?;
        format!(in alloc; "{error}").ok()
    }
}

/// Does what the words ask for, over these files and this sink, and ends with the status of the call. After the call a
/// reader is told how it ended.
fn run<R: Threads + Wait + Sync, F: Files, T: Tell + Look, S: Sink>(
    call: (&R, Global, &[String]),
    files: &mut Watched<F, T>,
    out: &mut S,
) -> ExitCode
    ensures { EndsWith (map string_bytes call.entry.2.now) (⟦<Watched<F, T> as Files>⟧.state files.old) (⟦<Watched<F, T> as Files>⟧.state files.new)
        (S.state out.old) (S.state out.new) (exit_status result) }
{
    let (rt, alloc, words) = call;
    let ended = lx_main(rt, alloc, words, files, out, &NoGate);
    let ending = Ending::of(words, ended.status, ended.refused.as_ref()).over(
        ended.mapped.as_ref(),
        ended.library.as_deref(),
    );
    tell_on(alloc, &ending, files);
    ExitCode::from(ended.status)
}

// The text of `--help`.
#[tactic(auto, unfolding(crate::specs::Telling::help))]
fn help() -> &'static str
    ensures { result.now ≡ help }
{
    HELP
}

/// What is told of the program itself, where that is all that the words ask for.
fn about(words: &[String]) -> Option<&'static str>
    ensures { option_copied result ≡ told_of (map string_bytes words.now) }
{
    match words {
        [word] if asks_help(word.as_str()) => Some(help()),
        [word] if word.as_str() == "--version" => Some(VERSION),
        _ => None,
    }
}

fn asks_help(word: &str) -> bool
    ensures { result ≡ asks_help word.now }
{
    word == "--help" || word == "-h"
}

/// The page of help of a command, where that is all that the words ask for.
fn page(words: &[String]) -> Option<&'static str>
    ensures { is_some result ≡ asks_page (map string_bytes words.now) }
{
    match words {
        [command, word] if asks_help(word.as_str()) => match help_of(command.as_str()) {
            Some(help) => Some(help.page),
            None => None,
        },
        _ => None,
    }
}

/// Puts a text into a sink, and ends with 0 where all of it was put, and with 4 where a put failed.
fn tell<S: Sink>(out: &mut S, text: &str) -> ExitCode
    ensures known { (exit_status result ≡ 0) ⊎ (exit_status result ≡ 4) }
    ensures whole { exit_status result ≡ 0 → Appends (S.state out.old).contents (S.state out.new).contents text.now }
    ensures write_failed { exit_status result ≡ 4 → Rose (S.state out.old).faults (S.state out.new).faults }
{
    match put_whole(out, text.as_bytes()) {
        Ok(()) => ExitCode::from(DONE),
        Err(_) => ExitCode::from(WRITE_FAILED),
    }
}

/// Does what the words ask for over real files and standard output, with notes on standard error.
fn run_real<R: Runtime + AllocGlobal + Threads + Wait + Sync>(
    rt: &R,
    words: &[String],
) -> Result<ExitCode, AllocError> {
    let alloc = rt.alloc();
    let answer = Answer::new(None);
    let heard = Heard::new(rt, &answer);
    let reader = Reader::new(rt, &answer);
    let disk = DiskFiles::new((heard, alloc));
    let mut files = Watched::new(alloc, disk, reader, words);
    let mut out = StdSink::new(io::writer(rt));
    Ok(run((rt, alloc, words), &mut files, &mut out))
}

/// Does what the command line asks for, over real files and standard output. This is all that `main` does.
pub fn program<R: Runtime + AllocGlobal + Threads + Wait + Sync>(rt: &R) -> ExitCode {
    let Ok(words) = words(rt) else {
        return ExitCode::from(NO_MEMORY);
    };
    if let Some(text) = about(&words).or(page(&words)) {
        return tell(&mut StdSink::new(io::writer(rt)), text);
    }
    match run_real(rt, &words) {
        Ok(code) => code,
        Err(AllocError) => ExitCode::from(NO_MEMORY),
    }
}
