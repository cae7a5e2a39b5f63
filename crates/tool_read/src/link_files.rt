//! The files of a link, loaded and read in turn.
ghost use Rattle.std.specs.Prelude.{◌≡◌, ◌≢◌, ◌∷◌, ◌++◌, [], ℕ, List, Result, IfOk, OnOk, map, option_map, string_bytes};
ghost use Rattle.lx_ports.specs.declared.files.LoadFault.{LoadFault};
ghost use Rattle.obj_types.specs.Definition.{WholeDef};
ghost use Rattle.obj_types.specs.Input.{WholeInput};
ghost use Rattle.obj_types.specs.Whole.{WholeModule};
ghost use Rattle.answer_model.specs.LinkAnswer.{input_of, input_with};
ghost use Rattle.answer_model.specs.Items.{object, object_file, object_or_library};
ghost use Rattle.answer_model.specs.AskedFiles.{asked_definition, asked_inputs};
ghost use Rattle.tool_read.specs.Readings.{ReadsLoad, asked};
ghost use Rattle.tool_read.specs.Steps.{AddsInput, AreModulesOf, AreWhole, GivesDefinition, IsInputWith, IsOneLoad, ReadsInTurn};

use crate::counts::total;
use crate::definitions::read_definition_file;
use crate::inputs::{read_input, read_object_file};
use crate::modules::Modules;
use command_line::stem_of;
use lx_ports::Files;
use lx_types::{Fail, MAX_FILE, Name, NoMemory, Seq};
use obj_types::{DefFile, LinkInput, ModKind, ObjModule};
use refusal_text::{LinkFiles, Refused};
use std::alloc::Global;

/// The object module of a file, which is loaded, whatever its first byte is.
pub fn read_object<F: Files>(
    alloc: Global,
    files: &mut F,
    name: &str,
) -> Result<ObjModule, Fail<Refused>>
    ensures read { (answer : Result (List ℕ) LoadFault)
        × IsOneLoad name.now answer (F.state files.old) (F.state files.new)
        × ReadsLoad object object_file name.now answer result }
    ensures whole { IfOk result WholeModule }
{
    let loaded = files.load(alloc, name, MAX_FILE);
    read_object_file(alloc, name, loaded)
}

// The definition file, where there is one, else an empty one of a program.
fn read_definition<F: Files>(
    alloc: Global,
    files: &mut F,
    name: Option<&str>,
) -> Result<DefFile, Fail<Refused>>
    ensures read { ReadsInTurn GivesDefinition (asked_definition (option_map (λ name. name.now) name.entry))
        (F.state files.old) (F.state files.new) result }
    ensures whole { IfOk result WholeDef }
{
    match name {
        Some(name) => {
            let loaded = files.load(alloc, name, MAX_FILE);
            read_definition_file(alloc, name, loaded)
        }
        None => Ok(DefFile::empty(alloc, ModKind::Program, None)),
    }
}

// The modules with those of one file more.
fn read_next<F: Files>(
    alloc: Global,
    files: &mut F,
    name: &str,
    modules: &mut Modules,
) -> Result<(), Fail<Refused>>
    requires { AreWhole modules.old }
    ensures read { (answer : Result (List ℕ) LoadFault)
        × IsOneLoad name.now answer (F.state files.old) (F.state files.new)
        × AddsInput (asked object_or_library name.now) answer modules.old modules.new result }
    ensures whole { OnOk result (AreWhole modules.new) }
{
    let loaded = files.load(alloc, name, MAX_FILE);
    match read_input(alloc, name, loaded) {
        Ok(input) => Ok(modules.add(name.to_string(alloc)?, input)?),
        Err(why) => Err(why),
    }
}

fn read_modules<F: Files>(
    alloc: Global,
    files: &mut F,
    names: &[String],
) -> Result<Modules, Fail<Refused>>
    ensures read { ReadsInTurn AreModulesOf (asked_inputs (map string_bytes names.now))
        (F.state files.old) (F.state files.new) result }
    ensures whole { IfOk result AreWhole }
{
    let mut modules = Modules::new(alloc);
    for name in names {
        match read_next(alloc, files, name, &mut modules) {
            Ok(()) => {}
            Err(why) => return Err(why),
        }
    }
    Ok(modules)
}

// The input and its files, where its counts have 32 bits.
fn counted_input(stem: Name, def: DefFile, modules: Modules) -> Result<LinkFiles, NoMemory>
    requires stem { stem ≢ [] }
    requires def { WholeDef def }
    requires modules { AreWhole modules }
    ensures is { IfOk result (λ read. IsInputWith stem def modules read.input) }
    ensures whole { IfOk result (λ read. WholeInput read.input) }
{
    let Modules {
        objects,
        libs,
        files,
    } = modules;
    let input = LinkInput {
        objects: Seq::from_vec(objects),
        libs: Seq::from_vec(libs),
        def,
        stem,
    };
    match total(&input) {
        Some(_) => Ok(LinkFiles { input, files }),
        None => Err(NoMemory),
    }
}

/// The input of a link to a module that has this name where its definition file gives none: the definition file, where
/// there is one, and the object files and libraries are loaded and read in turn.
pub fn read_input_with<F: Files>(
    alloc: Global,
    files: &mut F,
    stem: Name,
    definition: Option<&str>,
    inputs: &[String],
) -> Result<LinkFiles, Fail<Refused>>
    requires { stem ≢ [] }
    ensures read { ReadsInTurn (λ read items. read.input ≡ input_with stem items)
        (asked_definition (option_map (λ name. name.now) definition.entry) ++ asked_inputs (map string_bytes inputs.now))
        (F.state files.old) (F.state files.new) result }
    ensures whole { IfOk result (λ read. WholeInput read.input) }
{
    match read_definition(alloc, files, definition) {
        Ok(def) => match read_modules(alloc, files, inputs) {
            Ok(modules) => Ok(counted_input(stem, def, modules)?),
            Err(why) => Err(why),
        },
        Err(why) => Err(why),
    }
}

/// The input of a link to `out`, whose file name gives the module's name where no definition file does: as
/// `read_input_with`.
pub fn read_link_input<F: Files>(
    alloc: Global,
    files: &mut F,
    out: &str,
    definition: Option<&str>,
    inputs: &[String],
) -> Result<LinkFiles, Fail<Refused>>
    ensures read { ReadsInTurn (λ read items. read.input ≡ input_of out.now items)
        (asked_definition (option_map (λ name. name.now) definition.entry) ++ asked_inputs (map string_bytes inputs.now))
        (F.state files.old) (F.state files.new) result }
    ensures whole { IfOk result (λ read. WholeInput read.input) }
{
    let stem = stem_of(alloc, out)?;
    read_input_with(alloc, files, stem, definition, inputs)
}
