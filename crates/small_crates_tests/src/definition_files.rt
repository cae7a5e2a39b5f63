//! Module definition files that are written.

ghost use Rattle.std.specs.Prelude.{IfOk};
ghost use Rattle.obj_types.specs.Definition.{WholeDef};

use def_file::read_def;
use def_model::DefRefusal;
use def_write::{is_quotable, write_def};
use lx_types::{Bytes, Fail as Failure};
use obj_types::DefFile;
use std::alloc::Global;
use std::test::Fail;

/// A statement of each kind.
const TEXT: &[u8] = b"library counter INITINSTANCE
DESCRIPTION 'counts'
CODE EXECUTEONLY CONFORMING
DATA SINGLE EXECUTEREAD
SEGMENTS 'TABLES' CLASS 'FAR_CODE' IOPL
EXPORTS Count @1 RESIDENTNAME
 Reset=DoReset NODATA 3
IMPORTS Beep=DOSCALLS.286
 VIO.VioWrite
STACKSIZE 0x1000
HEAPSIZE 0xFFFFFFFF
BASE=0x10000
";

fn read(alloc: Global, bytes: &[u8]) -> Result<DefFile, Option<DefRefusal>>
    ensures { IfOk result (λ file. WholeDef file) }
{
    match read_def(alloc, bytes) {
        Ok(file) => Ok(file),
        Err(Failure::Said(refusal)) => Err(Some(refusal)),
        Err(Failure::NoMemory) => Err(None),
    }
}

fn write(alloc: Global, file: &DefFile) -> Result<Bytes, &'static str>
    requires { WholeDef file.now }
{
    if !is_quotable(file) {
        return Err("a quote within a name");
    }
    write_def(alloc, file).map_err(|_| "memory")
}

#[test]
fn a_written_file(rt: HostRuntime) -> Result<(), Fail> {
    let file = read(rt.alloc(), TEXT).ok().ok_or("a definition file")?;
    assert!(rt; write(rt.alloc(), &file).is_ok());
    Ok(())
}
