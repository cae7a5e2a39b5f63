//! The command `bind`: a module with the items of a resource file.
ghost use Rattle.std.specs.Prelude.{◌≡◌, ◌≤◌, IfOk, length};
ghost use Rattle.std.specs.List.{sum_by};
ghost use Rattle.lx_model.specs.Module.{IsRead};
ghost use Rattle.answer_model.specs.ResourceRefusals.{bind_text};
ghost use Rattle.res_model.specs.ResFile.{AreApart};
ghost use Rattle.answer_model.specs.BindAnswer.{bind_outcome, counts_of};
ghost use Rattle.answer_model.specs.Loading.{file_limit};
ghost use Rattle.answer_model.specs.Words as words;
ghost use Rattle.file_commands.specs.Doing.{Does, DoesOutcome};
ghost use Rattle.file_commands.specs.Refusals.{RefusesBy, said_in};

use crate::refusals::{in_full, refused_as};
use crate::saving::keep;
use crate::told::Told;
use lx_ports::Files;
use lx_types::{Bytes, Fail, NoMemory, Seq};
use refusal_text::Cause;
use res_bind::bind_res;
use res_model::{BindRefusal, ResItem};
use std::alloc::Global;
use tool_read::{Binding, read_binding};

// The bytes of all items together.
#[tactic(auto, using(std::proofs::lemmas::List::Sums::sum_by_more, std::proofs::lemmas::List::Sums::sum_by_more_le))]
fn total(items: &[ResItem]) -> usize
    requires { sum_by (λ i. length i.bytes) items.now ≤ file_limit }
    ensures { result ≡ sum_by (λ i. length i.bytes) items.now }
{
    let mut total = 0;
    for item in items {
        total += item.bytes.as_slice().len();
    }
    total
}

// `resources N bytes B`
fn counts_line(alloc: Global, items: &[ResItem]) -> Result<Bytes, NoMemory>
    requires { sum_by (λ i. length i.bytes) items.now ≤ file_limit }
    ensures { IfOk result (λ line. line ≡ counts_of items.now) }
{
    let count = items.len();
    let bytes = total(items);
    let line = format!(in alloc; "resources {count} bytes {bytes}\n")?;
    Ok(Seq::from_vec(line.into_bytes()))
}

fn refused(alloc: Global, out: &str, why: Fail<BindRefusal>) -> Result<Told, NoMemory>
    ensures { RefusesBy bind_text out.now why (said_in result) }
{
    match why {
        Fail::Said(refusal) => refused_as(alloc, out, Cause::Unbound(refusal)),
        Fail::NoMemory => Err(NoMemory),
    }
}

fn bind_items<F: Files>(
    alloc: Global,
    files: &mut F,
    out: &str,
    binding: &Binding,
) -> Result<Told, NoMemory>
    requires read { IsRead binding.now.target }
    requires apart { AreApart binding.now.items }
    requires small { sum_by (λ i. length i.bytes) binding.now.items ≤ file_limit }
    ensures { DoesOutcome (bind_outcome out.now binding.now.target.file binding.now.items)
        (F.state files.old) (F.state files.new) (said_in result) }
{
    let items = binding.items.as_slice();
    match bind_res(alloc, &binding.target, items) {
        Ok(file) => {
            let line = counts_line(alloc, items)?;
            keep(alloc, files, out, &file, line)
        }
        Err(why) => refused(alloc, out, why),
    }
}

/// Binds the items of a resource file to a module: loads and reads both in turn, saves the module with the items as OUT, and
/// says how many they are and how many bytes they have.
pub fn bind<F: Files>(
    alloc: Global,
    files: &mut F,
    out: &str,
    target: &str,
    resources: &str,
) -> Result<Told, NoMemory>
    ensures { Does (words.bind out.now target.now resources.now) (F.state files.old) (F.state files.new) (said_in result) }
{
    match read_binding(alloc, files, target, resources) {
        Ok(binding) => bind_items(alloc, files, out, &binding),
        Err(why) => in_full(alloc, why),
    }
}
