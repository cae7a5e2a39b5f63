//! What a bound file is written from.

use crate::header::OldTables;
use crate::layout::Layout;
use lx_types::ObjHead;
use res_model::ResItem;

/// A module's file with its tables and objects, the items that are bound to it, and the layout of both together.
#[derive(Clone, Copy)]
pub struct Plan<'a> {
    pub file: &'a [u8],
    pub tables: OldTables,
    pub objects: &'a [ObjHead],
    pub items: &'a [ResItem],
    pub layout: Layout,
}
