// Enter and clear: the calls that open the book.
ghost use Rattle.std.specs.Prelude.{◌≡◌, Some, MatchResult};
ghost use Rattle.theory.specs.Books.{enter as enter_call, clear as clear_call, cleared, enter_answer, enter_refusal};
ghost use Rattle.book.specs.Views.{view, Called, SameSlices};
ghost use Rattle.book.specs.Entering.{Admitted};

use crate::book::Book;
use crate::phase::{Taken, advance};
use measures::Measure;
use tables::blank_entry;
use theory::{Redraw, RedrawNumbers, Refusal};

/// The most minutes of a redraw.
const MOST_MINUTES: u32 = 65535;

/// The cleanest line grade.
// It bounds the number that comes in; `CLEANEST` of measures is the value of the empty chain.
const CLEANEST_GRADE: u32 = 5;

impl<'r, 't, 's, 'w, 'm, M: Measure> Book<'r, 't, 's, 'w, 'm, M> {
    /// The redraw that an enter gives, if it may stand in a register of the book.
    fn admit(&self, asked: RedrawNumbers) -> Result<Redraw, Refusal>
        ensures { MatchResult result (λ d. Admitted (view self.now) asked.from asked.to asked.minutes asked.grade d) (λ e. enter_refusal (view self.now) asked.from asked.to asked.minutes asked.grade ≡ Some e) }
    {
        let (from, to) = self.pair(asked.from, asked.to)?;
        if from == to {
            return Err(Refusal::SameSheet);
        }
        if !(1..=MOST_MINUTES).contains(&asked.minutes) {
            return Err(Refusal::Minutes);
        }
        if !(1..=CLEANEST_GRADE).contains(&asked.grade) {
            return Err(Refusal::Grade);
        }
        // Tested above, so that `as` cuts nothing.
        Ok(Redraw {
            from,
            to,
            minutes: asked.minutes as u16,
            grade: asked.grade as u8,
        })
    }

    /// Enters a redraw, empties the table and opens the book; answers the number of redraws held.
    pub fn enter(&mut self, asked: RedrawNumbers) -> Result<u32, Refusal>
        ensures called { Called M.Measure.meaning self.old (enter_call asked.from asked.to asked.minutes asked.grade) (enter_answer result) self.new }
        ensures slices { SameSlices self.old self.new }
    {
        let redraw = self.admit(asked)?;
        self.register
            .push(redraw)
            .map_err(|_| Refusal::RegisterFull)?;
        self.table.truncate(0, blank_entry());
        advance(&mut self.phase, Taken::Enter);
        let held = self.register.items().len();
        Ok(u32::try_from(held).unwrap_or(u32::MAX))
    }

    /// Empties the table and opens the book; never refused.
    pub fn clear(&mut self)
        ensures called { Called M.Measure.meaning self.old clear_call cleared self.new }
        ensures slices { SameSlices self.old self.new }
    {
        self.table.truncate(0, blank_entry());
        advance(&mut self.phase, Taken::Clear);
    }
}
