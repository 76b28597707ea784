// The making of a kept book, and the calls on it.
ghost use Rattle.std.specs.Prelude.{◌≡◌, length};
ghost use Rattle.theory.specs.Books.{new_book};
ghost use Rattle.book.specs.Views.{view};
ghost use Rattle.book.specs.Makings.{MadeOver};

use crate::kept_book::KeptBook;
use book::Checked;
use measures::Measure;
use priced::PricedBook;
use theory::{Built, Entry, RedrawNumbers, Refusal};

impl<'r, 't, 's, 'w, 'm, M: Measure> KeptBook<'r, 't, 's, 'w, 'm, M> {
    /// Makes the book over what was checked: open, with no redraws and no entries.
    pub fn make(checked: Checked<'r, 't, 's, 'w, 'm, M>) -> KeptBook<'r, 't, 's, 'w, 'm, M>
        ensures new { view result.book ≡ new_book checked.entry.sheets (length checked.entry.register.now) (length checked.entry.table.now) }
        ensures slices { MadeOver checked.entry result.book }
    {
        let book = checked.make();
        KeptBook { book }
    }
}

/// A kept book is a priced book.
impl<'r, 't, 's, 'w, 'm, M: Measure> PricedBook for KeptBook<'r, 't, 's, 'w, 'm, M> {
    type Value = M;

    ghost view = { λ b. view b.book };

    /// Enters a redraw.
    fn enter(&mut self, asked: RedrawNumbers) -> Result<u32, Refusal> {
        self.book.enter(asked)
    }

    /// Empties the table and opens the book.
    fn clear(&mut self) {
        self.book.clear()
    }

    /// Builds the next root.
    fn root(&mut self) -> Result<Built, Refusal> {
        self.book.root()
    }

    /// The best measure from one sheet to another.
    fn look(&self, from: u32, to: u32) -> Result<M, Refusal> {
        self.book.look(from, to)
    }

    /// The entries of the finished table.
    fn list(&self) -> Result<&[Entry<M>], Refusal> {
        self.book.list()
    }
}
