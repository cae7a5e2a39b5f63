//! The rows of logical segments by their numbers.

ghost use Rattle.std.specs.Prelude.{◌≡◌, ◌<◌, ℕ, map, length, get_or, IfOk};
ghost use Rattle.std.specs.List.{All};
ghost use Rattle.seg_parts.specs.Order.{gathered};
ghost use Rattle.seg_parts.specs.Placing.{placed_shown};
ghost use Rattle.seg_merge.specs.ByNumber.{row_at};

use lx_types::NoMemory;
use seg_parts::{Placed, gathered};
use std::alloc::Global;

// The first of the rows at these places.
fn first_row<'a>(rows: &[Placed<'a>], places: &[usize]) -> Placed<'a>
    requires some { 0 < length places.now }
    requires below { get_or places.now 0 0 < length rows.now }
    ensures { placed_shown result ≡ row_at (map placed_shown rows.entry.now) places.now }
{
    rows[places[0]]
}

/// The row of each logical segment by its number, where `order` has the numbers in the order of the rows.
pub fn rows_by_number<'a>(
    alloc: Global,
    order: &[usize],
    rows: &[Placed<'a>],
    count: usize,
) -> Result<Vec<Placed<'a>>, NoMemory>
    requires below { All (λ n. n < count) order.now }
    requires some { All (λ places. 0 < length places) (gathered order.now count) }
    requires as_many { length rows.now ≡ length order.now }
    ensures { IfOk result (λ found. map placed_shown found.items ≡ map (row_at (map placed_shown rows.entry.now)) (gathered order.now count)) }
{
    let lists = gathered(alloc, order, count)?;
    let mut found = Vec::new(alloc);
    for places in &lists {
        found.push(first_row(rows, places.as_slice()))?;
    }
    Ok(found)
}
