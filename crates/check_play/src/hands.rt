//! What pages are mapped with, and which page.

use lx_types::{NoMemory, PAGE_LEN, PageBytes, PageId};
use std::alloc::Global;
use std::sync::Wait;

/// What pages are mapped with: the runtime, and memory.
#[derive(Drop)]
pub struct Hands<'a, R: Wait> {
    pub rt: &'a R,
    pub alloc: Global,
}

/// A page of a residence, which is numbered among those that the process reaches.
#[derive(Clone, Copy)]
pub struct ReachedPage {
    pub residence: usize,
    pub page: PageId,
}

/// Room for the bytes of a page.
pub fn page_buffer(alloc: Global) -> Result<Box<PageBytes>, NoMemory> {
    Ok(Box::new(alloc, [0; PAGE_LEN])?)
}
