//! Which command the words are.
ghost use Rattle.std.specs.Prelude.{◌≡◌, IfSome, map, option_map, string_bytes};
ghost use Rattle.obj_types.specs.Definition.{IsBase};
ghost use Rattle.answer_model.specs.Words.{command_of, base_of, bind_of, count_of, definition_of, dump_of, gen_of, image_of, implib_of, link_of, map_of, memory_of, show_of};
ghost use Rattle.command_line.specs.Commands.{HasBase, HasCount, IsCount, checked, meant};
ghost use Rattle.answer_model.specs.CheckAnswer.{check_of};
ghost use Rattle.answer_model.specs.RunAnswer.{run_of};

use hex::FromHex;
use lx_types::{BASE_UNIT, MAX_MODULES};
use obj_types::{MAX_BASE, MIN_BASE};

/// What the words ask for.
#[derive(Clone, Copy)]
pub enum Command<'a> {
    /// `image OBJ BASE`: the bytes that an object file means at a base.
    Image {
        object: &'a str,
        base: u32,
    },
    /// `link OUT DEF IN ..`: a module is linked from object files and libraries.
    Link {
        out: &'a str,
        definition: Option<&'a str>,
        inputs: &'a [String],
    },
    /// `implib OUT IN ..`: an import library for modules and definition files.
    Implib {
        out: &'a str,
        inputs: &'a [String],
    },
    /// `bind OUT MODULE RES`: a module with the items of a resource file.
    Bind {
        out: &'a str,
        target: &'a str,
        resources: &'a str,
    },
    /// `gen N PREFIX`: so many modules, to try the linker and the loader on.
    Gen {
        count: u32,
        prefix: &'a str,
    },
    /// `dump FILE`: the lists of a module.
    Dump {
        file: &'a str,
    },
    /// `map DEF IN ..`: where all that a link places stands.
    Map {
        definition: Option<&'a str>,
        inputs: &'a [String],
    },
    /// `memory MODULE ..`: what the first of the modules, and all that it reaches, holds in memory.
    Memory {
        modules: &'a [String],
    },
    /// `show FILE`: what is in a module, an object file, a library or a resource file.
    Show {
        file: &'a str,
    },
}

impl<'a> Command<'a> {
    /// The command that the words are, or None where they are none.
    pub fn of(words: &'a [String]) -> Option<Command<'a>>
        ensures command { option_map meant result ≡ command_of (map string_bytes words.now) }
        ensures based { IfSome result HasBase }
        ensures counted { IfSome result HasCount }
    {
        let [word, rest @ ..] = words else {
            return None;
        };
        match word.as_str() {
            "image" => image(rest),
            "link" => link(rest),
            "implib" => implib(rest),
            "bind" => bind(rest),
            "gen" => generator(rest),
            "dump" => dump(rest),
            "map" => mapped(rest),
            "memory" => memory(rest),
            "show" => show(rest),
            _ => None,
        }
    }
}

/// The session's file, where the words are `run FILE`. No command of a build has these words.
pub fn session_named(words: &[String]) -> Option<&str>
    ensures { option_map (λ file. file.now) result ≡ run_of (map string_bytes words.now) }
{
    match words {
        [word, file] if word.as_str() == "run" => Some(file.as_str()),
        _ => None,
    }
}

/// The files of a check: that of a session, and that of the transcript that is judged against it.
#[derive(Clone, Copy)]
pub struct CheckWords<'a> {
    pub session: &'a str,
    pub transcript: &'a str,
}

/// The files that are named, where the words are `check FILE TRANSCRIPT`. No command of a build has these words, and no run.
pub fn check_named(words: &[String]) -> Option<CheckWords<'_>>
    ensures { option_map checked result ≡ check_of (map string_bytes words.now) }
{
    match words {
        [word, session, transcript] if word.as_str() == "check" => Some(CheckWords {
            session: session.as_str(),
            transcript: transcript.as_str(),
        }),
        _ => None,
    }
}

fn image<'a>(words: &'a [String]) -> Option<Command<'a>>
    ensures command { option_map meant result ≡ image_of (map string_bytes words.now) }
    ensures based { IfSome result HasBase }
    ensures counted { IfSome result HasCount }
{
    let [object, base] = words else {
        return None;
    };
    Some(Command::Image {
        object,
        base: base_of(base)?,
    })
}

// The base that eight hexadecimal digits name.
fn base_of(word: &str) -> Option<u32>
    ensures named { result ≡ base_of word.now }
    ensures in_arenas { IfSome result IsBase }
{
    let bytes = <[u8; 4] as FromHex>::from_hex(word).ok()?;
    let base = u32::from_be_bytes(bytes);
    if base % BASE_UNIT == 0 && base >= MIN_BASE && base <= MAX_BASE {
        Some(base)
    } else {
        None
    }
}

fn link<'a>(words: &'a [String]) -> Option<Command<'a>>
    ensures command { option_map meant result ≡ link_of (map string_bytes words.now) }
    ensures based { IfSome result HasBase }
    ensures counted { IfSome result HasCount }
{
    let [out, definition, inputs @ ..] = words else {
        return None;
    };
    if inputs.is_empty() {
        return None;
    }
    Some(Command::Link {
        out,
        definition: definition_of(definition),
        inputs,
    })
}

/// The definition file that a word names. `-` names none.
pub fn definition_of(word: &str) -> Option<&str>
    ensures { option_map (λ name. name.now) result ≡ definition_of word.now }
{
    if word == "-" { None } else { Some(word) }
}

fn implib<'a>(words: &'a [String]) -> Option<Command<'a>>
    ensures command { option_map meant result ≡ implib_of (map string_bytes words.now) }
    ensures based { IfSome result HasBase }
    ensures counted { IfSome result HasCount }
{
    let [out, inputs @ ..] = words else {
        return None;
    };
    if inputs.is_empty() {
        return None;
    }
    Some(Command::Implib { out, inputs })
}

fn bind<'a>(words: &'a [String]) -> Option<Command<'a>>
    ensures command { option_map meant result ≡ bind_of (map string_bytes words.now) }
    ensures based { IfSome result HasBase }
    ensures counted { IfSome result HasCount }
{
    let [out, target, resources] = words else {
        return None;
    };
    Some(Command::Bind {
        out,
        target,
        resources,
    })
}

fn generator<'a>(words: &'a [String]) -> Option<Command<'a>>
    ensures command { option_map meant result ≡ gen_of (map string_bytes words.now) }
    ensures based { IfSome result HasBase }
    ensures counted { IfSome result HasCount }
{
    let [count, prefix] = words else {
        return None;
    };
    Some(Command::Gen {
        count: count_of(count)?,
        prefix,
    })
}

fn dump<'a>(words: &'a [String]) -> Option<Command<'a>>
    ensures command { option_map meant result ≡ dump_of (map string_bytes words.now) }
    ensures based { IfSome result HasBase }
    ensures counted { IfSome result HasCount }
{
    let [file] = words else {
        return None;
    };
    Some(Command::Dump { file })
}

fn mapped<'a>(words: &'a [String]) -> Option<Command<'a>>
    ensures command { option_map meant result ≡ map_of (map string_bytes words.now) }
    ensures based { IfSome result HasBase }
    ensures counted { IfSome result HasCount }
{
    let [definition, inputs @ ..] = words else {
        return None;
    };
    if inputs.is_empty() {
        return None;
    }
    Some(Command::Map {
        definition: definition_of(definition),
        inputs,
    })
}

fn memory<'a>(words: &'a [String]) -> Option<Command<'a>>
    ensures command { option_map meant result ≡ memory_of (map string_bytes words.now) }
    ensures based { IfSome result HasBase }
    ensures counted { IfSome result HasCount }
{
    if words.is_empty() {
        return None;
    }
    Some(Command::Memory { modules: words })
}

fn show<'a>(words: &'a [String]) -> Option<Command<'a>>
    ensures command { option_map meant result ≡ show_of (map string_bytes words.now) }
    ensures based { IfSome result HasBase }
    ensures counted { IfSome result HasCount }
{
    let [file] = words else {
        return None;
    };
    Some(Command::Show { file })
}

// The number of modules that a word is, from 1 to 64, in decimal digits without a sign, and without zeros in front.
fn count_of(word: &str) -> Option<u32>
    ensures named { result ≡ count_of word.now }
    ensures few { IfSome result IsCount }
{
    let digits = word.as_bytes();
    if digits.is_empty() || digits[0] <= b'0' {
        return None;
    }
    let count = word.parse::<u32>().ok()?;
    if count <= MAX_MODULES {
        Some(count)
    } else {
        None
    }
}
