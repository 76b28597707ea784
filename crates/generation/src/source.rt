// What the next round takes.
use theory::{Entry, Redraw};

/// What the next round takes: the redraws, from an open book, or the present entries.
#[derive(Debug, Clone, Copy, PartialEq, Eq)]
pub enum Source<'a, M> {
    /// The redraws held.
    Redraws(&'a [Redraw]),
    /// The entries in use, in order.
    Entries(&'a [Entry<M>]),
}
