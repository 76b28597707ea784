// The root builder's turn: search, check the places, put the new entries in.
ghost use Rattle.std.specs.Prelude.{◌≡◌, OnErr, length, replicate};
ghost use Rattle.theory.specs.Measures.{Lawful};
ghost use Rattle.strips.specs.Strips.{Lengthened, SameSlice, count_after};
ghost use Rattle.roots.specs.Turns.{Buildable, BuiltRoot};

use crate::gathering::gather_both;
use measures::Measure;
use merging::merge;
use strips::{Full, Strip, part};
use tables::blank_entry;
use theory::{Entry, Redraw};

/// Searches from the root both ways, and puts the new entries into the table, if they find places.
fn put_in<M: Measure>(
    register: &[Redraw],
    table: &mut Strip<Entry<M>>,
    spare: &mut Strip<Entry<M>>,
    work: &mut [M],
    marks: &mut [u8],
    root: u16,
    sheets: u16,
) -> Result<(), Full>
    ensures slice { SameSlice table.old table.new }
    ensures counted { OnErr result (table.new.count ≡ table.old.count) }
    ensures work { work.new ≡ replicate (length work.old) M.Measure.meaning.none }
    ensures marks { marks.new ≡ replicate (length marks.old) 0 }
    ensures spare { Lengthened spare.old spare.new }
    ensures built { Lawful M.Measure.meaning → Buildable M.Measure.meaning sheets register.now root (length table.old.cells.now) table.old.count table.old.cells.now spare.old.cells.now work.old marks.old → spare.old.count ≡ 0 → BuiltRoot M.Measure.meaning sheets register.now root (length table.old.cells.now) table.old.cells.now (count_after result table.new) table.new.cells.now }
{
    let middle = gather_both(register, table.items(), spare, work, marks, root, sheets)?;
    let found = spare.items();
    if table.places().saturating_sub(table.count) < found.len() {
        return Err(Full);
    }
    merge(table, part(found, 0, middle));
    merge(table, part(found, middle, found.len()));
    Ok(())
}

/// Builds the root: the table holds the entries after `root` roots, and afterwards those after one root more.
/// Refuses, with the table untouched, if they exceed the places.
/// Spare, work and marks are lent blank and are blank again, on every way out.
pub fn grow<M: Measure>(
    register: &[Redraw],
    table: &mut Strip<Entry<M>>,
    spare: &mut [Entry<M>],
    work: &mut [M],
    marks: &mut [u8],
    root: u16,
    sheets: u16,
) -> Result<(), Full>
    ensures slice { SameSlice table.old table.new }
    ensures counted { OnErr result (table.new.count ≡ table.old.count) }
    ensures work { work.new ≡ replicate (length work.old) M.Measure.meaning.none }
    ensures marks { marks.new ≡ replicate (length marks.old) 0 }
    ensures spare { Lawful M.Measure.meaning → Buildable M.Measure.meaning sheets register.now root (length table.old.cells.now) table.old.count table.old.cells.now spare.old work.old marks.old → spare.new ≡ spare.old }
    ensures built { Lawful M.Measure.meaning → Buildable M.Measure.meaning sheets register.now root (length table.old.cells.now) table.old.count table.old.cells.now spare.old work.old marks.old → BuiltRoot M.Measure.meaning sheets register.now root (length table.old.cells.now) table.old.cells.now (count_after result table.new) table.new.cells.now }
{
    let mut found = Strip {
        cells: spare,
        count: 0,
    };
    let grown = put_in(register, table, &mut found, work, marks, root, sheets);
    found.truncate(0, blank_entry());
    grown
}
