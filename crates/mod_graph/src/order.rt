//! The order in which a module and what it reaches are loaded.

ghost use Rattle.std.specs.Prelude.{◌≡◌, ◌≤◌, ◌<◌, ◌^◌, IfOk, OnOk, length, map, All};
ghost use Rattle.lx_model.specs.Reach.{is_among, imports_of, Order};
ghost use Rattle.mod_graph.specs.Visiting.{visit_in, order_in, AreWithin};
ghost use Rattle.std.specs.List.{range_with_len};
ghost use Rattle.lx_types.specs.declared.limits.TheConstants.{MAX_MODULES};

use lx_types::{Module, NoMemory, Numbers};
use std::alloc::Global;

/// Whether a module is one of these.
pub fn is_among(modules: &[u32], m: u32) -> bool
    ensures { result ≡ is_among modules.now m }
{
    modules.iter().any(|other| *other == m)
}

/// Visits a module: what it imports is added to the order, and then itself, where it was not visited before.
/// The imports of each module are listed; the visits are at most `depth` deep.
fn visit(
    graph: &[Numbers],
    depth: usize,
    visited: &mut Vec<u32>,
    order: &mut Vec<u32>,
    m: u32,
) -> Result<(), NoMemory>
    requires within { AreWithin (length graph.now) graph.now }
    requires module { m < length graph.now }
    requires order { All (λ k. k < length graph.now) order.old.items }
    ensures visits { OnOk result (record { visited = visited.new.items; order = order.new.items }
        ≡ visit_in depth graph.now (record { visited = visited.old.items; order = order.old.items }) m) }
    ensures within { OnOk result (All (λ k. k < length graph.now) order.new.items) }
{
    if depth == 0 || is_among(visited, m) {
        return Ok(());
    }
    visited.insert(0, m)?;
    for import in graph[m as usize].as_slice() {
        visit(graph, depth - 1, visited, order, *import)?;
    }
    order.push(m)?;
    Ok(())
}

/// The order in which module `m` and what it reaches are loaded, from the imports of each module.
fn order_from(alloc: Global, graph: &[Numbers], m: u32) -> Result<Numbers, NoMemory>
    requires within { AreWithin (length graph.now) graph.now }
    requires module { m < length graph.now }
    requires few { length graph.now < 2 ^ 32 }
    ensures order { IfOk result (λ order. order ≡ order_in graph.now m) }
    ensures within { IfOk result (All (λ k. k < length graph.now)) }
{
    let mut visited = Vec::new(alloc);
    let mut order = Vec::new(alloc);
    visit(graph, graph.len() + 1, &mut visited, &mut order, m)?;
    Ok(Numbers::from_vec(order))
}

/// The order of each module, from the imports of each.
fn orders_from(alloc: Global, graph: &[Numbers]) -> Result<Vec<Numbers>, NoMemory>
    requires within { AreWithin (length graph.now) graph.now }
    requires few { length graph.now < 2 ^ 32 }
    ensures orders { IfOk result (λ orders. orders.items ≡ map (order_in graph.now) (range_with_len 0 (length graph.now))) }
    ensures within { IfOk result (λ orders. AreWithin (length graph.now) orders.items) }
{
    let mut orders = Vec::new(alloc);
    for m in 0..graph.len() {
        orders.push(order_from(alloc, graph, m as u32)?)?;
    }
    Ok(orders)
}

/// The order of each module, from the imports of each.
pub fn orders_of(
    alloc: Global,
    mods: &[Module],
    graph: &[Numbers],
) -> Result<Vec<Numbers>, NoMemory>
    requires few { length mods.now ≤ MAX_MODULES }
    requires graph { graph.now ≡ map (imports_of mods.now) (range_with_len 0 (length mods.now)) }
    requires graph_length { length graph.now ≡ length mods.now }
    requires within { AreWithin (length mods.now) graph.now }
    ensures orders { IfOk result (λ orders. orders.items ≡ map (Order mods.now) (range_with_len 0 (length mods.now))) }
    ensures length { IfOk result (λ orders. length orders.items ≡ length mods.now) }
    ensures within { IfOk result (λ orders. AreWithin (length mods.now) orders.items) }
{
    orders_from(alloc, graph)
}
