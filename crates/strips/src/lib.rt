//! Strips of lent memory: slices of records with a count of those in use.
#![tactic(auto)]

ghost use Rattle.std.specs.Prelude.{◌≡◌, ◌+◌, ◌-◌, ◌<◌, ◌≤◌, min, true, false, [], ◌∷◌, ◌++◌, length, replicate, if◌then◌else◌, is_ok, nat_lt, OnOk, OnErr, slice_index_or, slice_range, slice_set};
ghost use Rattle.strips.specs.Strips.{Held, used, wiped};

/// The record at a place, or `otherwise` past the end.
pub fn at<T: Copy>(xs: &[T], i: usize, otherwise: T) -> T
    ensures { result ≡ slice_index_or xs.now i otherwise }
{
    xs.get(i).copied().unwrap_or(otherwise)
}

/// Writes a record at a place; past the end nothing happens.
pub fn put<T: Copy>(xs: &mut [T], i: usize, x: T)
    ensures { xs.new ≡ slice_set xs.old i x }
{
    // Not `get_mut`: once its borrow is over a proof knows the slice's length and no element.
    if i < xs.len() {
        xs[i] = x;
    }
}

/// Makes every place from `from` on blank.
pub fn wipe<T: Copy>(xs: &mut [T], from: usize, blank: T)
    ensures { xs.new ≡ wiped xs.old from blank }
{
    if from < xs.len() {
        xs[from..].fill_with(|| blank);
    }
}

/// The records from one place up to another; nothing if there is no such part.
pub fn part<T>(xs: &[T], from: usize, to: usize) -> &[T]
    ensures there { from ≤ to → to ≤ length xs.now → result.now ≡ slice_range xs.now from to }
    ensures backwards { to < from → result.now ≡ [] }
    ensures beyond { length xs.now < to → result.now ≡ [] }
{
    xs.get(from..to).unwrap_or(&[])
}

/// Makes the places from `from` up to `to` blank; where those after `to` are blank, every place from `from` on is.
fn cut<T: Copy>(cells: &mut [T], from: usize, to: usize, blank: T)
    ensures cells { from ≤ to → Held blank cells.old to → cells.new ≡ wiped cells.old from blank }
    ensures items { used cells.new from ≡ used cells.old from }
    ensures held { from ≤ to → Held blank cells.old to → Held blank cells.new from }
{
    if from <= to && to <= cells.len() {
        wipe(&mut cells[..to], from, blank);
    }
}

/// Why a record was not put into a strip: every place is in use.
#[derive(Debug, Clone, Copy, PartialEq, Eq)]
pub struct Full;

/// A lent slice of records, of which the first `count` are in use.
// A slice with a count and no `Vec`, by the rules of the book: it allocates nothing and keeps to what was lent.
#[derive(Drop)]
pub struct Strip<'a, T> {
    /// The places, used and blank.
    pub cells: &'a mut [T],
    /// How many places are in use, from the first on.
    pub count: usize,
}

impl<'a, T: Copy> Strip<'a, T> {
    /// An empty strip over lent places, each made blank.
    pub fn new(cells: &'a mut [T], blank: T) -> Strip<'a, T>
        ensures cells { result.cells.now ≡ replicate (length cells.old) blank }
        ensures count { result.count ≡ 0 }
        ensures same { result.cells.ghost_name ≡ cells.entry.ghost_name }
        ensures held { Held blank result.cells.now result.count }
    {
        wipe(cells, 0, blank);
        Strip { cells, count: 0 }
    }

    /// The records in use; every record where the count passes the places.
    pub fn items(&self) -> &[T]
        ensures { result.now ≡ used self.now.cells.now self.now.count }
    {
        self.cells.get(..self.count).unwrap_or(self.cells)
    }

    /// How many places there are, used and blank.
    pub fn places(&self) -> usize
        ensures { result ≡ length self.now.cells.now }
    {
        self.cells.len()
    }

    /// Puts a record after those in use; refuses, and changes nothing, where no place is left.
    pub fn push(&mut self, x: T) -> Result<(), Full>
        ensures answer { is_ok result ≡ nat_lt self.old.count (length self.old.cells.now) }
        ensures cells { self.new.cells.now ≡ slice_set self.old.cells.now self.old.count x }
        ensures count { self.new.count ≡ (if is_ok result then self.old.count + 1 else self.old.count) }
        ensures places { length self.new.cells.now ≡ length self.old.cells.now }
        ensures items { OnOk result (used self.new.cells.now self.new.count ≡ used self.old.cells.now self.old.count ++ x ∷ []) }
        ensures refused { OnErr result ((self.new.cells.now ≡ self.old.cells.now) × (self.new.count ≡ self.old.count)) }
        ensures same { self.new.cells.ghost_name ≡ self.old.cells.ghost_name }
        ensures held { (b : T) → Held b self.old.cells.now self.old.count → Held b self.new.cells.now self.new.count }
    {
        if self.count >= self.places() {
            return Err(Full);
        }
        self.cells[self.count] = x;
        self.count += 1;
        Ok(())
    }

    /// Cuts the records in use to the first `count`, and makes the places of the others blank.
    /// It costs as many writes as records go, since the places past those in use are blank.
    pub fn truncate(&mut self, count: usize, blank: T)
        ensures cells { Held blank self.old.cells.now self.old.count → self.new.cells.now ≡ wiped self.old.cells.now (min count self.old.count) blank }
        ensures count { self.new.count ≡ min count self.old.count }
        ensures places { length self.new.cells.now ≡ length self.old.cells.now }
        ensures items { used self.new.cells.now self.new.count ≡ used self.old.cells.now (min count self.old.count) }
        ensures same { self.new.cells.ghost_name ≡ self.old.cells.ghost_name }
        ensures held { Held blank self.old.cells.now self.old.count → Held blank self.new.cells.now self.new.count }
    {
        let left = count.min(self.count);
        cut(self.cells, left, self.count, blank);
        self.count = left;
    }
}

/// Marks on lent bytes: a guard that leaves every byte zero when it goes.
pub struct Marks<'a> {
    /// The bytes, zero where nothing is marked.
    pub cells: &'a mut [u8],
}

impl Drop for Marks<'_> {
    /// Makes every byte zero.
    fn drop(self)
        ensures { self.exit.0.now ≡ replicate (length self.entry.cells.now) 0 }
    {
        wipe(self.cells, 0, 0);
        let Marks { cells: _ } = self;
    }
}

#[cfg(test)]
mod tests {
    use super::*;

    // A function that marks two bytes, and may leave after the first.
    fn kernel(marks: &mut [u8], early: bool) -> Result<u8, u8>
        ensures { marks.new ≡ replicate (length marks.old) 0 }
    {
        let guard = Marks { cells: marks };
        put(guard.cells, 0, 1);
        if early {
            return Err(1);
        }
        put(guard.cells, 1, 1);
        Ok(at(guard.cells, 1, 0))
    }

    // Every byte is zero again after an early return and after a late one.
    #[test]
    fn marks_are_cleared_on_both_ways(rt: HostRuntime) {
        let mut marks = [7, 7, 7];
        assert_eq!(rt; kernel(&mut marks, true), Err(1));
        assert_eq!(rt; marks, [0, 0, 0]);
        assert_eq!(rt; kernel(&mut marks, false), Ok(1));
        assert_eq!(rt; marks, [0, 0, 0]);
    }
}
