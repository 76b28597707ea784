// The pruned search from a root (Dijkstra's): settle the unsettled sheet of best value, and relax its redraws unless the table answers it as well.
ghost use Rattle.std.specs.Prelude.{◌≡◌, ℕ, ◌<◌, ◌≤◌, min, true, false, length, None};
ghost use Rattle.theory.specs.Measures.{Lawful};
ghost use Rattle.theory.specs.Chains.{Register, best};
ghost use Rattle.theory.specs.Tables.{held, listed, rooted};
ghost use Rattle.theory.specs.Order.{Sorted};
ghost use Rattle.theory.specs.Searches.{facing, facing_redraw, facing_redraws, facing_table, relaxed_one, relaxed, unsettled, value_at, nearest_below, answers_as_well, settled_marks, settled_work, Underway};
ghost use Rattle.roots.specs.Turns.{nearer_of, Ready};

use crate::ways::{ends, extend, present};
use measures::Measure;
use strips::{at, put};
use theory::{Entry, Redraw, Way};

/// A search from the root one way, over the redraws of the register, held against the table.
#[derive(Debug, Clone, Copy)]
pub struct Search<'a, M> {
    /// Whether the search goes out from the root or in towards it.
    pub way: Way,
    /// The redraws along which it goes.
    pub register: &'a [Redraw],
    /// The entries of the table after the roots before this one.
    pub table: &'a [Entry<M>],
    /// The sheet from which it goes.
    pub root: u16,
    /// How many sheets there are.
    pub sheets: u16,
}

// Marks are bytes and no enum, by the rules of the book: the strip is lent as bytes, and zero between calls.
/// The mark of a sheet that is not settled yet.
const UNSETTLED: u8 = 0;

/// The mark of a settled sheet that the table answers as well.
pub const PRUNED: u8 = 1;

/// The mark of a settled sheet whose redraws were relaxed.
pub const RELAXED: u8 = 2;

/// The sheet, if it is unsettled and better than the one found so far; else that one.
fn nearer<M: Measure>(work: &[M], marks: &[u8], sheet: u16, found: Option<u16>) -> Option<u16>
    ensures { result ≡ nearer_of M.Measure.meaning work.now marks.now sheet found }
{
    let best = match found {
        Some(other) => at(work, other as usize, M::none()),
        None => M::none(),
    };
    if at(marks, sheet as usize, PRUNED) == UNSETTLED
        && at(work, sheet as usize, M::none()).better(best)
    {
        Some(sheet)
    } else {
        found
    }
}

/// Relaxes one redraw: if it starts at the sheet, the sheet where it ends gets the longer value if that is better.
fn relax_one<M: Measure>(way: Way, redraw: Redraw, sheet: u16, value: M, work: &mut [M])
    ensures { work.new ≡ relaxed_one (facing way M.Measure.meaning) sheet value (facing_redraw way redraw) work.old }
{
    let (start, end) = ends(way, redraw);
    if start == sheet {
        let end = end as usize;
        let longer = extend(way, value, redraw);
        if longer.better(at(work, end, longer)) {
            put(work, end, longer);
        }
    }
}

impl<M: Measure> Search<'_, M> {
    /// Relaxes every redraw that starts at the sheet.
    fn relax(&self, sheet: u16, value: M, work: &mut [M])
        ensures { work.new ≡ relaxed (facing self.now.way M.Measure.meaning) sheet value (facing_redraws self.now.way self.now.register.now) work.old }
    {
        let way = self.way;
        for redraw in self.register {
            relax_one(way, *redraw, sheet, value, work);
        }
    }

    /// The unsettled sheet of best value, none if no unsettled sheet has a value.
    // A `for`, with the best so far in its invariant: a fold over the sheets says the same, and its proof needs the range's items as a list.
    fn nearest(&self, work: &[M], marks: &[u8]) -> Option<u16>
        ensures { result ≡ nearest_below M.Measure.meaning work.now marks.now self.now.sheets }
    {
        let mut found = None;
        for sheet in 0..self.sheets {
            found = nearer(work, marks, sheet, found);
        }
        found
    }

    /// Whether the table answers the sheet as well as the search does; the root itself is never left out.
    fn answered(&self, sheet: u16, value: M) -> bool
        ensures { (n : ℕ) → n ≤ 65536 → Sorted M.Measure.meaning n self.now.table.now → result ≡ answers_as_well (facing self.now.way M.Measure.meaning) (facing_table self.now.way (held M.Measure.meaning self.now.table.now)) self.now.root sheet value }
    {
        sheet != self.root && !value.better(present(self.way, self.table, self.root, sheet))
    }

    /// Settles the sheet: marks it, and relaxes its redraws unless the table answers it as well.
    // `pruned` is a plain yes or no, the answer of `answered`.
    fn settle(&self, sheet: u16, pruned: bool, work: &mut [M], marks: &mut [u8])
        ensures work { work.new ≡ settled_work (facing self.now.way M.Measure.meaning) pruned (facing_redraws self.now.way self.now.register.now) sheet work.old }
        ensures marks { marks.new ≡ settled_marks pruned sheet marks.old }
    {
        if pruned {
            put(marks, sheet as usize, PRUNED);
        } else {
            put(marks, sheet as usize, RELAXED);
            let value = at(work, sheet as usize, M::none());
            self.relax(sheet, value, work);
        }
    }

    /// Searches from the root until no unsettled sheet has a value.
    pub fn run(&self, work: &mut [M], marks: &mut [u8])
        ensures ends { nearest_below M.Measure.meaning work.new marks.new self.now.sheets ≡ None }
        ensures goes { Lawful M.Measure.meaning → Ready M.Measure.meaning self.now.sheets self.now.register.now self.now.table.now self.now.root → Underway (facing self.now.way M.Measure.meaning) self.now.sheets (facing_redraws self.now.way self.now.register.now) self.now.root work.old marks.old → Underway (facing self.now.way M.Measure.meaning) self.now.sheets (facing_redraws self.now.way self.now.register.now) self.now.root work.new marks.new }
    {
        while let Some(sheet) = self.nearest(work, marks) {
            let value = at(work, sheet as usize, M::none());
            let pruned = self.answered(sheet, value);
            self.settle(sheet, pruned, work, marks);
        }
    }
}
