// Relaxing: the work strip holds, for each senior sheet, the best value offered so far to the pair of the junior sheet and that one.
ghost use Rattle.std.specs.Prelude.{◌≡◌};
ghost use Rattle.theory.specs.Order.{key_of};
ghost use Rattle.tables.specs.Places.{Rising};
ghost use Rattle.generation.specs.Laying.{Relaxable};
ghost use Rattle.generation.specs.Offers.{offered, relaxed_entry, relaxed_join, redraw_entry, Relaxed, AnyOffers, EntryOffers, JoinOffers, PresentOffers, RowOffers};

use crate::source::Source;
use crate::ways::Row;
use measures::Measure;
use strips::{at, put};
use tables::joined;
use theory::{Entry, Redraw};

/// Offers a value to a sheet, which keeps the better one.
fn offer<M: Measure>(work: &mut [M], sheet: u16, value: M)
    ensures { work.new ≡ offered M.Measure.meaning sheet value work.old }
{
    if value.better(at(work, sheet as usize, value)) {
        put(work, sheet as usize, value);
    }
}

/// The entry that a redraw alone would give.
// No `From`: both types are of another crate, which holds no functions.
fn as_entry<M: Measure>(redraw: Redraw) -> Entry<M>
    ensures { result ≡ redraw_entry M.Measure.meaning redraw }
{
    Entry {
        from: redraw.from,
        to: redraw.to,
        value: M::worth(redraw),
    }
}

impl Row {
    /// Relaxes an entry: if it leads from the junior sheet to a senior one, that one is offered its value.
    fn relax_entry<M: Measure>(self, entry: Entry<M>, work: &mut [M])
        ensures { work.new ≡ relaxed_entry M.Measure.meaning self.way self.junior entry work.old }
    {
        if self.near(entry) == self.junior && self.far(entry) < self.junior {
            offer(work, self.far(entry), entry.value);
        }
    }

    /// Relaxes an entry that leads on from where one of the junior sheet with the given value ends: if it leads to a sheet senior to the junior one, that one is offered their join.
    fn relax_join<M: Measure>(self, value: M, entry: Entry<M>, work: &mut [M])
        ensures { work.new ≡ relaxed_join M.Measure.meaning self.way self.junior value entry work.old }
    {
        if self.far(entry) < self.junior {
            offer(work, self.far(entry), joined(self.way, value, entry.value));
        }
    }

    /// Relaxes every redraw.
    fn relax_redraws<M: Measure>(self, register: &[Redraw], work: &mut [M])
        ensures { Relaxed M.Measure.meaning (AnyOffers (λ r. EntryOffers self.way self.junior (redraw_entry M.Measure.meaning r)) register.now) work.old work.new }
    {
        for redraw in register {
            self.relax_entry(as_entry(*redraw), work);
        }
    }

    /// Relaxes every entry of a list that leads on from where one of the junior sheet with the given value ends.
    fn relax_list<M: Measure>(self, value: M, list: &[Entry<M>], work: &mut [M])
        ensures { Relaxed M.Measure.meaning (AnyOffers (JoinOffers M.Measure.meaning self.way self.junior value) list.now) work.old work.new }
    {
        for item in list {
            self.relax_join(value, *item, work);
        }
    }

    /// Relaxes a present entry of the junior sheet, and the list of the sheet to which it leads.
    fn relax_present<M: Measure>(self, table: &[Entry<M>], entry: Entry<M>, work: &mut [M])
        ensures { Rising key_of table.now → Relaxed M.Measure.meaning (PresentOffers M.Measure.meaning self.way self.junior table.now entry) work.old work.new }
    {
        if self.near(entry) == self.junior {
            self.relax_entry(entry, work);
            self.relax_list(entry.value, self.list_of(table, self.far(entry)), work);
        }
    }

    /// Relaxes every present entry.
    fn relax_table<M: Measure>(self, table: &[Entry<M>], work: &mut [M])
        ensures { Rising key_of table.now → Relaxed M.Measure.meaning (AnyOffers (PresentOffers M.Measure.meaning self.way self.junior table.now) table.now) work.old work.new }
    {
        for item in table {
            self.relax_present(table, *item, work);
        }
    }

    /// Relaxes what the next round takes for the row.
    pub fn relax<M: Measure>(self, source: Source<M>, work: &mut [M])
        ensures { Relaxable source.entry → Relaxed M.Measure.meaning (RowOffers M.Measure.meaning self.way self.junior source.entry) work.old work.new }
    {
        match source {
            Source::Redraws(register) => self.relax_redraws(register, work),
            Source::Entries(table) => self.relax_table(table, work),
        }
    }
}
