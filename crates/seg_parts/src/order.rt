//! Logical segments in the order in which they stand.

ghost use Rattle.std.specs.Prelude.{◌≡◌, ◌<◌, [], map, bytes_eq, IfOk};
ghost use Rattle.std.specs.List.{All, concat, range_with_len};
ghost use Rattle.seg_parts.specs.Parts.{shown};
ghost use Rattle.seg_parts.specs.Order.{gathered, class_numbers, class_count};

use crate::parts::Part;
use lx_types::NoMemory;
use name_table::NameTable;
use std::alloc::Global;

/// As many empty lists.
pub fn empty_lists(alloc: Global, count: usize) -> Result<Vec<Vec<usize>>, NoMemory>
    ensures { IfOk result (λ lists. map (λ v. v.items) lists.items ≡ map (λ _. []) (range_with_len 0 count)) }
{
    let mut lists = Vec::new(alloc);
    for _place in 0..count {
        lists.push(Vec::new(alloc))?;
    }
    Ok(lists)
}

/// The places of each number below `count` among these.
pub fn gathered(alloc: Global, numbers: &[usize], count: usize) -> Result<Vec<Vec<usize>>, NoMemory>
    requires { All (λ n. n < count) numbers.now }
    ensures { IfOk result (λ lists. map (λ v. v.items) lists.items ≡ gathered numbers.now count) }
{
    let mut lists = empty_lists(alloc, count)?;
    for (place, number) in numbers.iter().enumerate() {
        lists[*number].push(place)?;
    }
    Ok(lists)
}

/// The number of each logical segment's class, and how many classes there are.
#[derive(Drop)]
struct Classes {
    numbers: Vec<usize>,
    count: usize,
}

/// The classes of these logical segments, numbered from 0 by first appearance.
fn classes_of(alloc: Global, heads: &[Part<'_>]) -> Result<Classes, NoMemory>
    ensures numbers { IfOk result (λ c. c.numbers.items ≡ class_numbers (map shown heads.now)) }
    ensures count { IfOk result (λ c. c.count ≡ class_count (map shown heads.now)) }
{
    let mut names = NameTable::new(alloc);
    let mut numbers = Vec::new(alloc);
    for head in heads {
        numbers.push(names.push(alloc, head.class.bytes(), ())?)?;
    }
    Ok(Classes {
        numbers,
        count: names.len(),
    })
}

/// The items of these lists, list by list.
fn flattened(alloc: Global, lists: &[Vec<usize>]) -> Result<Vec<usize>, NoMemory>
    ensures { IfOk result (λ all. all.items ≡ concat (map (λ v. v.items) lists.now)) }
{
    let mut all = Vec::new(alloc);
    for list in lists {
        all.extend_from_slice(list.as_slice())?;
    }
    Ok(all)
}

/// The numbers of these logical segments class by class.
pub fn by_class(alloc: Global, heads: &[Part<'_>]) -> Result<Vec<usize>, NoMemory>
    ensures { IfOk result (λ order. order.items ≡ concat (gathered (class_numbers (map shown heads.now)) (class_count (map shown heads.now)))) }
{
    let classes = classes_of(alloc, heads)?;
    let lists = gathered(alloc, classes.numbers.as_slice(), classes.count)?;
    flattened(alloc, lists.as_slice())
}
