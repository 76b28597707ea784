// Look and list: the calls that read a finished book.
ghost use Rattle.std.specs.Prelude.{◌≡◌, ◌<◌, false, ◌&&◌, IfOk, OnOk, MatchResult, nat_lt};
ghost use Rattle.std.specs.Result.{result_map_both};
ghost use Rattle.theory.specs.Chains.{BestOver};
ghost use Rattle.theory.specs.Books.{look as look_call, list as list_call, list_answer, look_answer, Guarantee};
ghost use Rattle.book.specs.Views.{view, Kept, Called};

use crate::book::Book;
use measures::Measure;
use tables::answer;
use theory::{Entry, Phase, Refusal};

impl<'r, 't, 's, 'w, 'm, M: Measure> Book<'r, 't, 's, 'w, 'm, M> {
    /// Two sheet numbers, if both are below the number of sheets.
    pub(crate) fn pair(&self, from: u32, to: u32) -> Result<(u16, u16), Refusal>
        ensures { MatchResult result (λ pair. (pair ≡ (from, to)) × (from < self.now.sheets) × (to < self.now.sheets)) (λ e. (e ≡ Refusal.UnknownSheet) × ((nat_lt from self.now.sheets && nat_lt to self.now.sheets) ≡ false)) }
    {
        let sheets = u32::from(self.sheets);
        if from < sheets && to < sheets {
            // Tested above, so that no bit is lost; `try_from` would add a case that cannot be.
            Ok((from as u16, to as u16))
        } else {
            Err(Refusal::UnknownSheet)
        }
    }

    /// The best measure from one sheet to another.
    pub fn look(&self, from: u32, to: u32) -> Result<M, Refusal>
        ensures called { Called M.Measure.meaning self.now (look_call from to) (look_answer result) self.now }
        ensures best { Kept M.Measure.meaning self.now → IfOk result (λ best. BestOver M.Measure.meaning (view self.now).redraws from to best) }
    {
        let (from, to) = self.pair(from, to)?;
        let entries = self.list()?;
        Ok(answer(entries, from, to))
    }

    /// The entries of the finished table.
    pub fn list(&self) -> Result<&[Entry<M>], Refusal>
        ensures called { Called M.Measure.meaning self.now list_call (list_answer (result_map_both (λ entries. entries.now) (λ e. e) result)) self.now }
        ensures guarantee { Kept M.Measure.meaning self.now → OnOk result (Guarantee M.Measure.meaning (view self.now)) }
    {
        match self.phase {
            Phase::Finished => Ok(self.table.items()),
            _ => Err(Refusal::NotFinished),
        }
    }
}
