//! Numbered rows of bytes that are painted run after run: the segments of a module, or the objects of a link.

ghost use Rattle.std.specs.Prelude.{◌≡◌, ◌+◌, ◌≤◌, ◌<◌, ◌==◌, [], ℕ, OnOk, IfOk, length, slice_index, map, if◌then◌else◌};
ghost use Rattle.std.specs.List.{range_with_len};
ghost use Rattle.link_fix.specs.Images.{byte_of, byte_after, painted};

use lx_types::NoMemory;
use std::alloc::Global;
use std::mem::replace;

/// Rows of bytes by number. A row is as long as it takes; where nothing was painted there are zeros.
pub struct Images {
    rows: Vec<Vec<u8>>,
}

// Dropped by a call, as lists are (`Seq`).
impl Drop for Images {
    fn drop(self) {
        let Images { rows } = self;
        drop(rows);
    }
}

// Makes a row at least so long, by zeros at its end.
fn grow(row: &mut Vec<u8>, len: usize) -> Result<(), NoMemory>
    ensures len { OnOk result (len ≤ length row.new.items) }
    ensures same { OnOk result ((x : ℕ) → slice_index row.new.items x ≡ slice_index row.old.items x) }
{
    if row.len() < len {
        row.resize(len, 0)?;
    }
    Ok(())
}

// Puts bytes in the place of those of a row.
fn overwrite(row: &mut [u8], at: usize, run: &[u8])
    requires { at + length run.now ≤ length row.old }
    ensures { (x : ℕ) → slice_index row.new x ≡ painted at run.now row.old x }
{
    let end = at + run.len();
    row[at..end].copy_from_slice(run);
}

fn paint_row(row: &mut Vec<u8>, at: usize, run: &[u8]) -> Result<(), NoMemory>
    ensures { OnOk result ((x : ℕ) → slice_index row.new.items x ≡ painted at run.now row.old.items x) }
{
    let Some(end) = at.checked_add(run.len()) else {
        return Err(NoMemory);
    };
    grow(row, end)?;
    overwrite(row.as_mut_slice(), at, run);
    Ok(())
}

impl Images {
    /// No row has a byte other than 0. It takes no memory.
    pub fn new(alloc: Global) -> Images
        ensures { (n : ℕ) (x : ℕ) → byte_of result n x ≡ 0 }
    {
        Images {
            rows: Vec::new(alloc),
        }
    }

    // Makes more rows than this number.
    fn add_rows(&mut self, alloc: Global, number: usize) -> Result<(), NoMemory>
        ensures len { OnOk result (number < length self.new.rows.items) }
        ensures same { OnOk result ((n : ℕ) (x : ℕ) → byte_of self.new n x ≡ byte_of self.old n x) }
    {
        'rows: while self.rows.len() <= number {
            self.rows.push(Vec::new(alloc))?;
        }
        Ok(())
    }

    /// Puts a run of bytes at an offset of a row, over what was there. After want of memory nothing is told of the rows.
    pub fn paint(
        &mut self,
        alloc: Global,
        number: u32,
        at: usize,
        run: &[u8],
    ) -> Result<(), NoMemory>
        ensures { OnOk result ((n : ℕ) (x : ℕ) → byte_of self.new n x ≡ byte_after self.old number at run.now n x) }
    {
        let place = number as usize;
        self.add_rows(alloc, place)?;
        paint_row(&mut self.rows[place], at, run)
    }

    /// A byte of a row.
    pub fn byte(&self, number: u32, at: usize) -> u8
        ensures { result ≡ byte_of self.now number at }
    {
        match self.rows.get(number as usize) {
            None => 0,
            Some(row) => match row.get(at) {
                None => 0,
                Some(byte) => *byte,
            },
        }
    }

    /// The bytes of a row up to the last that was painted; after them there are zeros.
    pub(crate) fn held(&self, number: u32) -> &[u8]
        ensures { (x : ℕ) → slice_index result.now x ≡ byte_of self.now number x }
    {
        match self.rows.get(number as usize) {
            None => &[],
            Some(row) => row.as_slice(),
        }
    }

    /// Makes room for this many bytes more of a row, which take no other memory then. No byte changes.
    pub fn reserve(&mut self, alloc: Global, number: usize, len: usize) -> Result<(), NoMemory>
        ensures { OnOk result ((n : ℕ) (x : ℕ) → byte_of self.new n x ≡ byte_of self.old n x) }
    {
        self.add_rows(alloc, number)?;
        self.rows[number].reserve_exact(len)?;
        Ok(())
    }

    /// The first bytes of a row, as many as `len`.
    pub fn row(&self, alloc: Global, number: usize, len: usize) -> Result<Vec<u8>, NoMemory>
        ensures { IfOk result (λ bytes. bytes.items ≡ map (byte_of self.now number) (range_with_len 0 len)) }
    {
        let held = match self.rows.get(number) {
            None => &[],
            Some(row) => row.as_slice(),
        };
        first_bytes(alloc, held, len)
    }

    /// Takes the first bytes of a row out, as many as `len`, in the memory that they have. Nothing is left in the row.
    pub fn take_row(
        &mut self,
        alloc: Global,
        number: usize,
        len: usize,
    ) -> Result<Vec<u8>, NoMemory>
        ensures bytes { IfOk result (λ bytes. bytes.items ≡ map (byte_of self.old number) (range_with_len 0 len)) }
        ensures left { OnOk result ((n : ℕ) (x : ℕ) → byte_of self.new n x ≡ (if number == n then 0 else byte_of self.old n x)) }
    {
        self.add_rows(alloc, number)?;
        take_bytes(alloc, &mut self.rows[number], len)
    }
}

// Takes the first bytes of a row out, with zeros after its end, and leaves none.
fn take_bytes(alloc: Global, row: &mut Vec<u8>, len: usize) -> Result<Vec<u8>, NoMemory>
    ensures bytes { IfOk result (λ bytes. bytes.items ≡ map (slice_index row.old.items) (range_with_len 0 len)) }
    ensures left { row.new.items ≡ [] }
{
    let mut bytes = replace(row, Vec::new(alloc));
    bytes.resize(len, 0)?;
    Ok(bytes)
}

// The first bytes of a list, and zeros after its end.
fn first_bytes(alloc: Global, held: &[u8], len: usize) -> Result<Vec<u8>, NoMemory>
    ensures { IfOk result (λ bytes. bytes.items ≡ map (slice_index held.now) (range_with_len 0 len)) }
{
    let known = usize::min(held.len(), len);
    let mut bytes = Vec::from_slice(alloc, &held[..known])?;
    bytes.resize(len, 0)?;
    Ok(bytes)
}
