// The new entries that a search has found, put into the spare strip in order.
ghost use Rattle.std.specs.Prelude.{◌≡◌, ◌≤◌, ◌&&◌, length, ◌==◌, nat_lt, slice_index_or};
ghost use Rattle.theory.specs.Searches.{fresh_at, fresh_below};
ghost use Rattle.strips.specs.Strips.{Added, Lengthened, count_after};

use crate::search::{PRUNED, RELAXED, Search};
use measures::Measure;
use strips::{Full, Strip, at};
use tables::entry_between;
use theory::Entry;

impl<M: Measure> Search<'_, M> {
    /// Whether the search has given the sheet a new entry: it was relaxed, and is junior to the root.
    fn found(&self, sheet: u16, marks: &[u8]) -> bool
        ensures { result ≡ (nat_lt self.now.root sheet && slice_index_or marks.now sheet 1 == 2) }
    {
        self.root < sheet && at(marks, sheet as usize, PRUNED) == RELAXED
    }

    /// Puts the sheet's new entry, if it has one, into the spare strip; refuses if no place is left.
    fn add(
        &self,
        sheet: u16,
        work: &[M],
        marks: &[u8],
        spare: &mut Strip<Entry<M>>,
    ) -> Result<(), Full>
        ensures strip { Lengthened spare.old spare.new }
        ensures cases { spare.old.count ≤ length spare.old.cells.now → Added spare.old.cells.now spare.old.count (fresh_at M.Measure.meaning self.now.way self.now.root work.now marks.now sheet) (count_after result spare.new) spare.new.cells.now }
    {
        if !self.found(sheet, marks) {
            return Ok(());
        }
        let value = at(work, sheet as usize, M::none());
        spare.push(entry_between(self.way, self.root, sheet, value))
    }

    /// Puts the new entries, by rising sheet, into the spare strip; refuses if they do not fit.
    // Like `collect` of generation in its three lines alone: another sheet is asked for, by another test. It goes by sheets, of whose numbers entries are made.
    pub fn collect(&self, work: &[M], marks: &[u8], spare: &mut Strip<Entry<M>>) -> Result<(), Full>
        ensures strip { Lengthened spare.old spare.new }
        ensures cases { spare.old.count ≤ length spare.old.cells.now → Added spare.old.cells.now spare.old.count (fresh_below M.Measure.meaning self.now.way self.now.root work.now marks.now self.now.sheets) (count_after result spare.new) spare.new.cells.now }
    {
        for sheet in 0..self.sheets {
            self.add(sheet, work, marks, spare)?;
        }
        Ok(())
    }
}
