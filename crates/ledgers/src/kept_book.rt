// A book of redraws under any lawful measure, with what is kept true of it.
ghost use Rattle.std.specs.Coded.{Coded-set};
ghost use Rattle.book.specs.Views.{Kept};
ghost use Rattle.ledgers.specs.Kepts.{kept_prop};

use book::Book;
use measures::{Chain, Measure, Minutes, Weakest};

/// A book of redraws that was made, and changed by its calls alone.
#[derive(Drop)]
pub struct KeptBook<'r, 't, 's, 'w, 'm, M: Measure> {
    /// The book itself.
    pub(crate) book: Book<'r, 't, 's, 'w, 'm, M>,
    ghost kept: { Kept M.meaning book } by { kept_prop (Coded-set M.code) M.meaning book },
}

/// A book of redraws by minutes.
pub type MinutesBook<'r, 't, 's, 'w, 'm> = KeptBook<'r, 't, 's, 'w, 'm, Minutes>;

/// A book of redraws by steps and lowest grade.
pub type ChainBook<'r, 't, 's, 'w, 'm> = KeptBook<'r, 't, 's, 'w, 'm, Chain>;

/// A book of redraws by lowest grade.
pub type WeakestBook<'r, 't, 's, 'w, 'm> = KeptBook<'r, 't, 's, 'w, 'm, Weakest>;
