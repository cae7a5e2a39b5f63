//! The command `dump`: the lists of a module.
ghost use Rattle.std.specs.Prelude.{◌≡◌, IfOk};
ghost use Rattle.dump_model.specs.Dumps.{Dump};
ghost use Rattle.dump_model.specs.Listings.{listing_of};
ghost use Rattle.lx_model.specs.Module.{IsRead};
ghost use Rattle.answer_model.specs.Words as words;
ghost use Rattle.file_commands.specs.Doing.{Does};
ghost use Rattle.file_commands.specs.Refusals.{said_in};

use crate::refusals::in_full;
use crate::told::Told;
use dump_core::listing;
use lx_ports::Files;
use lx_types::{Module, NoMemory};
use std::alloc::Global;
use tool_read::read_module;

// The text of a module's lists.
fn dumped(alloc: Global, m: &Module) -> Result<Told, NoMemory>
    requires { IsRead m.now }
    ensures { IfOk result (λ told. told.said ≡ record { status = 0; text = Dump (listing_of m.now) }) }
{
    let lists = listing(alloc, m)?;
    Ok(Told::done(dump_core::dump(alloc, &lists)?))
}

/// Tells what is in a module: loads and reads it, and says its lists. Nothing is saved.
pub fn dump<F: Files>(alloc: Global, files: &mut F, file: &str) -> Result<Told, NoMemory>
    ensures { Does (words.dump file.now) (F.state files.old) (F.state files.new) (said_in result) }
{
    match read_module(alloc, files, file) {
        Ok(module) => dumped(alloc, &module),
        Err(why) => in_full(alloc, why),
    }
}
