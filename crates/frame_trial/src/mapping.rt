//! Threads that map all pages, each in its order.

ghost use Rattle.std.specs.Prelude.{◌≡◌, ◌<◌};

use crate::shared::Shared;
use lx_types::{NoMemory, PAGE_LEN, PageBytes, PageId};
use page_fix::Steps;
use std::alloc::Global;
use std::marker::Brand;
use std::sync::Wait;
use std::sync::ledger::{Blank, Ledger};
use std::thread;
use std::thread::Threads;

/// What the threads saw: how many pages were fixed, and how many threads saw the same bytes as the first one.
#[derive(Clone, Copy)]
pub struct Seen {
    pub fixed: u32,
    pub alike: u32,
}

/// A thread: its number and how many pages it maps; how many of them it fixed, a sum over the bytes of all, and whether it
/// found no memory.
#[derive(Clone, Copy)]
struct Task {
    number: u32,
    pages: u32,
    fixed: u32,
    sum: u64,
    starved: bool,
}

impl Task {
    // The page that comes after so many: every second thread goes backwards, and each begins elsewhere.
    fn page(&self, before: u32) -> u32 {
        let from = self.number.wrapping_mul(67);
        let at = if self.number % 2 == 0 {
            from.wrapping_add(before)
        } else {
            from.wrapping_add(self.pages).wrapping_sub(before)
        };
        at.checked_rem(self.pages).unwrap_or(0)
    }

    // Maps all pages, over the ledger of a blank.
    fn map_over<L: Ledger, R: Wait>(
        &mut self,
        rt: &R,
        alloc: Global,
        shared: &Shared,
        blank: Blank,
    ) -> Result<(), NoMemory>
        requires name { blank.name ≡ L.name }
        requires parts { blank.parts ≡ L.parts }
        requires some { 0 < blank.parts }
    {
        let mut steps = Steps::<L>::of(blank);
        let mut bytes = [0; PAGE_LEN];
        for before in 0..self.pages {
            let page = self.page(before);
            if shared.map(
                rt,
                alloc,
                PageId { object: 1, page },
                &mut bytes,
                &mut steps,
            )? {
                self.fixed = self.fixed.saturating_add(1);
            }
            self.sum = self.sum.wrapping_add(sum_of(page, &bytes));
        }
        Ok(())
    }

    // Maps all pages. Nobody counts the steps.
    fn map<R: Wait>(&mut self, rt: &R, alloc: Global, shared: &Shared) {
        if self
            .map_over::<Brand, R>(rt, alloc, shared, Blank::new(1))
            .is_err()
        {
            self.starved = true;
        }
    }
}

// A number that tells the bytes of a page from others.
fn sum_of(page: u32, bytes: &PageBytes) -> u64 {
    let mut sum = u64::from(page).wrapping_add(1);
    for byte in bytes {
        sum = sum.wrapping_mul(31).wrapping_add(u64::from(*byte));
    }
    sum
}

// The tasks of so many threads.
fn tasks_of(alloc: Global, pages: u32, threads: u32) -> Result<Vec<Task>, NoMemory> {
    let mut tasks = Vec::new(alloc);
    for number in 0..threads {
        tasks.push(Task {
            number,
            pages,
            fixed: 0,
            sum: 0,
            starved: false,
        })?;
    }
    Ok(tasks)
}

// What the threads saw together, where each had memory.
fn seen_by(tasks: &[Task]) -> Result<Seen, NoMemory> {
    let first = tasks.first().map_or(0, |task| task.sum);
    let mut seen = Seen { fixed: 0, alike: 0 };
    for task in tasks {
        if task.starved {
            return Err(NoMemory);
        }
        seen.fixed = seen.fixed.saturating_add(task.fixed);
        if task.sum == first {
            seen.alike = seen.alike.saturating_add(1);
        }
    }
    Ok(seen)
}

/// So many threads map the first so many pages of the module's first object, each in a thread of its own where one can be made.
pub fn map_by_all<R: Threads + Wait + Sync>(
    rt: &R,
    alloc: Global,
    shared: &Shared,
    pages: u32,
    threads: u32,
) -> Result<Seen, NoMemory>
    requires { 0 < threads }
{
    let mut tasks = tasks_of(alloc, pages, threads)?;
    let each = |_: usize, task: &mut Task| {
        task.map(rt, alloc, shared);
    };
    thread::for_each_mut(rt, tasks.as_mut_slice(), threads as usize, &each);
    seen_by(tasks.as_slice())
}
