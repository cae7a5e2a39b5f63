//! Resource files.
ghost use Rattle.std.specs.Prelude.{◌≡◌, ◌≤◌, ℕ, List, Result, IfOk, length, sum_by};
ghost use Rattle.lx_ports.specs.Calls.{load_answer};
ghost use Rattle.lx_ports.specs.declared.files.LoadFault.{LoadFault};
ghost use Rattle.res_model.specs.ResFile.{AreApart};
ghost use Rattle.answer_model.specs.Loading.{file_limit};
ghost use Rattle.answer_model.specs.Items.{resources, resource_file, resource_form};
ghost use Rattle.tool_read.specs.Readings.{ReadsForm, ReadsLoad};
ghost use Rattle.tool_read.specs.Steps.{IsOneLoad};

use crate::lines::told;
use crate::loads::opened;
use lx_ports::{Files, LoadFault};
use lx_types::{Fail, MAX_FILE, Seq};
use refusal_text::{FileFault, Refused};
use res_file::read_res;
use res_model::ResItem;
use std::alloc::Global;

fn items_in(alloc: Global, bytes: &[u8]) -> Result<Seq<ResItem>, Fail<FileFault>>
    requires { length bytes.now ≤ file_limit }
    ensures read { ReadsForm resources resource_form bytes.now result }
    ensures apart { IfOk result AreApart }
    ensures small { IfOk result (λ items. sum_by (λ i. length i.bytes) items ≤ file_limit) }
{
    match read_res(alloc, bytes) {
        Ok(items) => Ok(Seq::from_vec(items)),
        Err(Fail::Said(refusal)) => Err(Fail::Said(FileFault::Resources(refusal))),
        Err(Fail::NoMemory) => Err(Fail::NoMemory),
    }
}

fn read_resource_file(
    alloc: Global,
    name: &str,
    loaded: Result<Vec<u8>, LoadFault>,
) -> Result<Seq<ResItem>, Fail<Refused>>
    requires { IfOk loaded (λ bytes. length bytes.items ≤ file_limit) }
    ensures read { ReadsLoad resources resource_file name.now (load_answer loaded) result }
    ensures apart { IfOk result AreApart }
    ensures small { IfOk result (λ items. sum_by (λ i. length i.bytes) items ≤ file_limit) }
{
    match opened(alloc, name, loaded) {
        Ok(bytes) => match items_in(alloc, &bytes) {
            Ok(items) => Ok(items),
            Err(why) => Err(told(alloc, name, bytes, why)),
        },
        Err(why) => Err(why),
    }
}

/// The items of a resource file, which is loaded, whatever its first bytes are.
pub fn read_resources<F: Files>(
    alloc: Global,
    files: &mut F,
    name: &str,
) -> Result<Seq<ResItem>, Fail<Refused>>
    ensures read { (answer : Result (List ℕ) LoadFault)
        × IsOneLoad name.now answer (F.state files.old) (F.state files.new)
        × ReadsLoad resources resource_file name.now answer result }
    ensures apart { IfOk result AreApart }
    ensures small { IfOk result (λ items. sum_by (λ i. length i.bytes) items ≤ file_limit) }
{
    let loaded = files.load(alloc, name, MAX_FILE);
    read_resource_file(alloc, name, loaded)
}
