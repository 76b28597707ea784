// The making of a book: the lent slices are checked, and then they become a book, which cannot be refused.
ghost use Rattle.std.specs.Prelude.{◌≡◌, length, IfOk};
ghost use Rattle.std.specs.Result.{result_err};
ghost use Rattle.theory.specs.Books.{making_refusal, new_book};
ghost use Rattle.book.specs.Views.{view, Kept};
ghost use Rattle.book.specs.Makings.{MadeOver, Makeable};

use crate::book::Book;
use crate::checked::Checked;
use measures::Measure;
use strips::Strip;
use tables::blank_entry;
use theory::{Entry, Phase, Redraw, Refusal};

/// The most sheets that a book has.
const MOST_SHEETS: u32 = 1024;

/// The most redraws that a register has places for.
const MOST_REDRAWS: usize = 16384;

/// The most entries that a table has places for.
const MOST_ENTRIES: usize = 65536;

/// Checks the number of sheets and the lengths of the slices that are to be lent, and answers the number of sheets.
/// What was checked then goes into `Checked`, which holds only slices of the right lengths.
pub fn check<M: Measure>(
    sheets: u32,
    register: &[Redraw],
    table: &[Entry<M>],
    spare: &[Entry<M>],
    work: &[M],
    marks: &[u8],
) -> Result<u16, Refusal>
    ensures refusal { result_err result ≡ making_refusal sheets (length register.now) (length table.now) (length spare.now) (length work.now) (length marks.now) }
    ensures lengths { IfOk result (λ n. (n ≡ sheets) × Makeable n (length register.now) (length table.now) (length spare.now) (length work.now) (length marks.now)) }
{
    if !(1..=MOST_SHEETS).contains(&sheets) {
        return Err(Refusal::SheetCount);
    }
    if register.len() > MOST_REDRAWS {
        return Err(Refusal::RegisterPlaces);
    }
    if table.len() > MOST_ENTRIES {
        return Err(Refusal::TablePlaces);
    }
    if spare.len() != table.len() {
        return Err(Refusal::SparePlaces);
    }
    if work.len() != sheets as usize || marks.len() != sheets as usize {
        return Err(Refusal::WorkPlaces);
    }
    // Tested above, so that `as` cuts nothing.
    Ok(sheets as u16)
}

impl<'r, 't, 's, 'w, 'm, M: Measure> Checked<'r, 't, 's, 'w, 'm, M> {
    /// Makes the book: open, with no redraws and no entries, every strip blank.
    pub fn make(self) -> Book<'r, 't, 's, 'w, 'm, M>
        ensures new { view result ≡ new_book self.entry.sheets (length self.entry.register.now) (length self.entry.table.now) }
        ensures slices { MadeOver self.entry result }
        ensures kept { Kept M.Measure.meaning result }
    {
        let Checked {
            register,
            table,
            spare,
            work,
            marks,
            sheets,
        } = self;
        Book {
            register: Strip::new(register, Redraw::default()),
            table: Strip::new(table, blank_entry()),
            spare: Strip::new(spare, blank_entry()),
            work: Strip::new(work, M::none()),
            marks: Strip::new(marks, 0),
            sheets,
            phase: Phase::Open,
        }
    }
}
