// What every priced book promises, whatever its measure: each call is a step of the rules.
#![tactic(auto)]

ghost use Rattle.std.specs.Prelude.{◌≡◌, Err, IfOk, OnOk};
ghost use Rattle.std.specs.Result.{result_map_both};
ghost use Rattle.theory.specs.Chains.{BestOver};
ghost use Rattle.theory.specs.Books.{View, Stepped, Guarantee, NothingFits, enter as enter_call, clear as clear_call, root as root_call, look as look_call, list as list_call, cleared, enter_answer, built_answer, look_answer, list_answer};

use measures::Measure;
use theory::{Built, Entry, RedrawNumbers, Refusal};

/// A book of redraws under one measure (hub labels over a graph), by what is seen of it.
pub trait PricedBook {
    type Value: Measure;

    ghost view: { Self → View Self.Value };

    /// Enters a redraw, empties the table and opens the book; answers the number of redraws held.
    fn enter(&mut self, asked: RedrawNumbers) -> Result<u32, Refusal>
        ensures { Stepped Self.Value.Measure.meaning (view self.old) (enter_call asked.from asked.to asked.minutes asked.grade) (enter_answer result) (view self.new) };

    /// Empties the table and opens the book; never refused.
    fn clear(&mut self)
        ensures { Stepped Self.Value.Measure.meaning (view self.old) clear_call cleared (view self.new) };

    /// Builds the next root; refused for want of places only if no honest, right table fits.
    fn root(&mut self) -> Result<Built, Refusal>
        ensures called { Stepped Self.Value.Measure.meaning (view self.old) root_call (built_answer result) (view self.new) }
        ensures wanting { result ≡ Err Refusal.WantOfPlaces → NothingFits Self.Value.Measure.meaning (view self.old) };

    /// The best measure from one sheet to another, over all chains of the redraws held.
    fn look(&self, from: u32, to: u32) -> Result<Self::Value, Refusal>
        ensures called { Stepped Self.Value.Measure.meaning (view self.now) (look_call from to) (look_answer result) (view self.now) }
        ensures best { IfOk result (λ best. BestOver Self.Value.Measure.meaning (view self.now).redraws from to best) };

    /// The entries of the finished table, with all that a finished book guarantees.
    fn list(&self) -> Result<&[Entry<Self::Value>], Refusal>
        ensures called { Stepped Self.Value.Measure.meaning (view self.now) list_call (list_answer (result_map_both (λ entries. entries.now) (λ e. e) result)) (view self.now) }
        ensures guarantee { OnOk result (Guarantee Self.Value.Measure.meaning (view self.now)) };
}
