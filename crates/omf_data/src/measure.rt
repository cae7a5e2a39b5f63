//! How long the data of "A2h LIDATA" is, measured before anything is expanded.

ghost use Rattle.std.specs.Prelude.{◌≡◌, ◌+◌, ◌*◌};
ghost use Rattle.lx_types.specs.Answers.{as_is, Gives, Reads};
ghost use Rattle.omf_model.specs.Copies.{capped as capped_at_limit};
ghost use Rattle.omf_data.specs.Expanding.{measured_at, counted_at};

use obj_types::{MAX_DATA, MAX_DEPTH, OmfRefusal};
use omf_fields::Fields;

/// A length above the limit counts as one more than the limit.
fn capped(len: u64) -> u32
    ensures { result ≡ capped_at_limit len }
{
    len.min(u64::from(MAX_DATA) + 1) as u32
}

/// The length of data after other data.
fn sum(first: u32, second: u32) -> u32
    ensures { result ≡ capped_at_limit (first + second) }
{
    capped(u64::from(first) + u64::from(second))
}

/// The length of data that is repeated.
fn product(times: u32, len: u32) -> u32
    ensures { result ≡ capped_at_limit (times * len) }
{
    capped(u64::from(times) * u64::from(len))
}

/// The length of the next block's data, with `left` depths left. A block that is nested too deep is `Nested` at its
/// first byte.
#[tactic(auto, unfolding(omf_model::specs::ReadBlocks::block_at))]
pub fn measured_block(fields: &mut Fields, wide: bool, left: u32) -> Result<u32, OmfRefusal>
    ensures { Reads (λ len. len) as_is result (measured_at left wide) fields.old fields.new }
{
    let at = fields.at();
    let times = fields.number(wide)?;
    if left == 0 {
        return Err(OmfRefusal::Nested { at });
    }
    let count = fields.word()?;
    if count == 0 {
        let len = fields.byte()?;
        let _content = fields.bytes(usize::from(len))?;
        return Ok(product(times, u32::from(len)));
    }
    let mut inner = 0;
    let mut more = count;
    'inner: while more > 0 {
        let len = measured_block(fields, wide, left - 1)?;
        inner = sum(inner, len);
        more -= 1;
    }
    Ok(product(times, inner))
}

/// The length of the data of all blocks that are left.
#[tactic(auto, unfolding(omf_model::specs::ReadBlocks::blocks_at))]
pub fn measured(fields: &mut Fields, wide: bool) -> Result<u32, OmfRefusal>
    ensures { Gives (λ len. len) as_is result (counted_at wide fields.old) }
{
    let mut len = 0;
    'all: while !fields.is_empty() {
        let next = measured_block(fields, wide, MAX_DEPTH)?;
        len = sum(len, next);
    }
    Ok(len)
}
