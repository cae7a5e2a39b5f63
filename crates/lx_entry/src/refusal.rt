//! Why a table is not read.

ghost use Rattle.std.specs.Prelude.{◌≡◌, true};
ghost use Rattle.lx_types.specs.declared.fail.Fail.TheVariants as fail;

use lx_fields::Short;
use lx_types::Fail;

/// The first fault of a table: its place in the table's bytes, and whether it is a field that
/// passes their end. Otherwise it is of the table's own kind.
#[derive(Clone, Copy)]
pub struct TableRefusal {
    pub at: u32,
    pub short: bool,
}

impl From<Short> for TableRefusal {
    ghost from_gives = { λ s r. r ≡ record { at = s.at; short = true } };

    fn from(short: Short) -> TableRefusal {
        TableRefusal {
            at: short.at,
            short: true,
        }
    }
}

impl From<TableRefusal> for Fail<TableRefusal> {
    ghost from_gives = { λ r e. e ≡ fail.Said r };

    fn from(refusal: TableRefusal) -> Fail<TableRefusal> {
        Fail::Said(refusal)
    }
}
