// What was lent for a book, once it is checked.
ghost use Rattle.std.specs.Prelude.{◌≡◌, ◌≤◌, length};

use measures::Measure;
use theory::{Entry, Redraw};

/// Lent slices of the right lengths for a book of so many sheets. Whoever writes one down owes the lengths, which `check` answers for.
#[derive(Drop)]
pub struct Checked<'r, 't, 's, 'w, 'm, M: Measure> {
    // Five slices and no one struct of strips: each strip is lent on its own, by the rules of the book.
    /// The redraws will stand here.
    pub register: &'r mut [Redraw],
    /// The entries of the table will stand here.
    pub table: &'t mut [Entry<M>],
    /// The next table will be built here.
    pub spare: &'s mut [Entry<M>],
    /// A place for each sheet.
    pub work: &'w mut [M],
    /// A place for each sheet.
    pub marks: &'m mut [u8],
    /// How many sheets there are.
    pub sheets: u16,
    ghost some_sheets: { 1 ≤ sheets },
    ghost few_sheets: { sheets ≤ 1024 },
    ghost few_redraws: { length register.now ≤ 16384 },
    ghost few_entries: { length table.now ≤ 65536 },
    ghost spare_same: { length spare.now ≡ length table.now },
    ghost work_same: { length work.now ≡ sheets },
    ghost marks_same: { length marks.now ≡ sheets },
}
