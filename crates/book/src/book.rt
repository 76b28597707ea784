// The book: what it holds in the strips that were lent to it.

use measures::Measure;
use strips::Strip;
use theory::{Entry, Phase, Redraw};

/// A book of redraws under one measure, over five lent strips.
#[derive(Drop)]
pub struct Book<'r, 't, 's, 'w, 'm, M: Measure> {
    /// The redraws that were entered.
    pub(crate) register: Strip<'r, Redraw>,
    /// The entries of the table.
    pub(crate) table: Strip<'t, Entry<M>>,
    /// As many places as the table has, for the building of the next table.
    pub(crate) spare: Strip<'s, Entry<M>>,
    /// A value for each sheet, for the search from a root.
    pub(crate) work: Strip<'w, M>,
    /// A mark for each sheet, for the search from a root.
    pub(crate) marks: Strip<'m, u8>,
    /// How many sheets there are; they are numbered from zero.
    pub(crate) sheets: u16,
    /// Where the book stands.
    pub(crate) phase: Phase,
}
