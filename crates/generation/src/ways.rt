// One row serves both ways: what an entry is to the out row and to the in row of a junior sheet.
ghost use Rattle.std.specs.Prelude.{◌≡◌};
ghost use Rattle.theory.specs.Order.{key_of};
ghost use Rattle.tables.specs.Places.{Rising, Part};
ghost use Rattle.tables.specs.SheetLists.{list_begin, list_end};
ghost use Rattle.generation.specs.Offers.{near_end, far_end};

use tables::list_of;
use theory::{Entry, Way};

/// A row of the generated table: the entries of one way between a junior sheet and the sheets senior to it.
#[derive(Debug, Clone, Copy, PartialEq, Eq)]
pub struct Row {
    /// Whether they lead out from the junior sheet, or in to it.
    pub way: Way,
    /// The junior sheet.
    pub junior: u16,
}

impl Row {
    /// The end of an entry at which the row looks for its junior sheet.
    // A match of its own, and so is `far`, where roots has one pair for both ends of a redraw: with a pair every redraw that the row passes costs nearly twice as much.
    pub fn near<M: Copy>(self, entry: Entry<M>) -> u16
        ensures { result ≡ near_end self.way entry }
    {
        match self.way {
            Way::Out => entry.from,
            Way::In => entry.to,
        }
    }

    /// The end of an entry to which it leads the row.
    pub fn far<M: Copy>(self, entry: Entry<M>) -> u16
        ensures { result ≡ far_end self.way entry }
    {
        match self.way {
            Way::Out => entry.to,
            Way::In => entry.from,
        }
    }

    /// The list of a sheet to which an entry leads the row: the entries that lead on from there.
    // One call, with a promise of its own, so that the mistake of following the whole table can be made in it.
    pub fn list_of<M: Copy>(self, table: &[Entry<M>], sheet: u16) -> &[Entry<M>]
        ensures { Rising key_of table.now → Part table.now (list_begin self.way sheet) (list_end self.way sheet) result.now }
    {
        list_of(table, self.way, sheet)
    }
}
