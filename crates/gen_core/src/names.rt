//! The names of modules, and of the files that are made.

ghost use Rattle.std.specs.Prelude.{◌≡◌, IfOk, string_bytes};
ghost use Rattle.gen_model.specs.Modules.{public_name, module_name};
ghost use Rattle.gen_model.specs.Sessions as files;

use lx_types::{Name, NoMemory};
use std::alloc::{AllocError, Global};

/// The public name of module `k`, which is that of its object module too: `gk`.
pub fn public_name(alloc: Global, k: u32) -> Result<Name, NoMemory>
    ensures { IfOk result (λ name. name ≡ public_name k) }
{
    Name::of_short(alloc, format!(in alloc; "g{k}")?.as_bytes())
}

/// The name of module `k` once it is linked: `Gk`.
pub fn module_name(alloc: Global, k: u32) -> Result<Name, NoMemory>
    ensures { IfOk result (λ name. name ≡ module_name k) }
{
    Name::of_short(alloc, format!(in alloc; "G{k}")?.as_bytes())
}

/// The name of the object file of module `k`.
pub fn object_name(alloc: Global, prefix: &str, k: u32) -> Result<String, AllocError>
    ensures { IfOk result (λ name. string_bytes name ≡ files.object_name prefix.now k) }
{
    format!(in alloc; "{prefix}{k}.obj")
}

/// The name of the definition file of module `k`.
pub fn definition_name(alloc: Global, prefix: &str, k: u32) -> Result<String, AllocError>
    ensures { IfOk result (λ name. string_bytes name ≡ files.definition_name prefix.now k) }
{
    format!(in alloc; "{prefix}{k}.def")
}

/// The name of the session's file.
pub fn session_name(alloc: Global, prefix: &str) -> Result<String, AllocError>
    ensures { IfOk result (λ name. string_bytes name ≡ files.session_name prefix.now) }
{
    format!(in alloc; "{prefix}.ses")
}
