// The round builder's turn: generate, check the places, prune into the table.
#![tactic(auto)]

ghost use Rattle.std.specs.Prelude.{◌≡◌, ℕ, List, length, replicate};
ghost use Rattle.theory.specs.Measures.{Lawful};
ghost use Rattle.theory.specs.Order.{Sorted};
ghost use Rattle.strips.specs.Strips.{Lengthened, SameSlice};
ghost use Rattle.generation.specs.Laying.{next_generated, Takeable};
ghost use Rattle.rounds.specs.Laying.{next_round, Registered, Roundable, LaidRound};

use generation::{Source, generate};
use measures::Measure;
use pruning::prune;
use strips::{Full, Strip};
use tables::blank_entry;
use theory::{Entry, Redraw};

/// What the next round takes: the redraws, if a register is given, otherwise the present entries.
fn source<'a, M: Measure>(register: Option<&'a [Redraw]>, present: &'a [Entry<M>]) -> Source<'a, M>
    ensures table { (n : ℕ) → next_generated M.Measure.meaning n result ≡ next_round M.Measure.meaning n register.entry present.now }
    ensures takeable { (n : ℕ) → Registered n register.entry → Sorted M.Measure.meaning n present.now → Takeable M.Measure.meaning n result }
{
    match register {
        Some(redraws) => Source::Redraws(redraws),
        None => Source::Entries(present),
    }
}

/// Generates the table of the next round in the spare strip and prunes it into the table.
/// Refused, with the table untouched, if the generated table, before pruning, exceeds the places.
fn turn<M: Measure>(
    register: Option<&[Redraw]>,
    table: &mut Strip<Entry<M>>,
    spare: &mut Strip<Entry<M>>,
    work: &mut [M],
    sheets: u16,
) -> Result<bool, Full>
    ensures slice { SameSlice table.old table.new }
    ensures spare { Lengthened spare.old spare.new }
    ensures work { work.new ≡ replicate (length work.old) M.Measure.meaning.none }
    ensures laid { Lawful M.Measure.meaning → (es : List (Entry M)) → Roundable M.Measure.meaning sheets register.entry es table.old spare.old work.old → LaidRound M.Measure.meaning sheets (next_round M.Measure.meaning sheets register.entry es) es table.old result table.new }
{
    generate(source(register, table.items()), sheets, spare, work)?;
    Ok(prune(spare.items(), table))
}

/// Lays the next round: from the redraws, where the book is open and its register is given, otherwise from the present entries.
/// The table has the present entries, and afterwards those that the round leaves. Answers whether they are the same;
/// refused, with the table untouched, if the generated table, before pruning, exceeds the places.
/// Spare and work are lent blank and are blank again, on every way out.
// The `bool` is a plain yes or no; how many entries there are is the strip's count.
pub fn lay<M: Measure>(
    register: Option<&[Redraw]>,
    table: &mut Strip<Entry<M>>,
    spare: &mut Strip<Entry<M>>,
    work: &mut [M],
    sheets: u16,
) -> Result<bool, Full>
    ensures slice { SameSlice table.old table.new }
    ensures spare_same { spare.new.cells.ghost_name ≡ spare.old.cells.ghost_name }
    ensures work { work.new ≡ replicate (length work.old) M.Measure.meaning.none }
    ensures spare { (es : List (Entry M)) → Roundable M.Measure.meaning sheets register.entry es table.old spare.old work.old → (spare.new.cells.now ≡ spare.old.cells.now) × (spare.new.count ≡ spare.old.count) }
    ensures laid { Lawful M.Measure.meaning → (es : List (Entry M)) → Roundable M.Measure.meaning sheets register.entry es table.old spare.old work.old → LaidRound M.Measure.meaning sheets (next_round M.Measure.meaning sheets register.entry es) es table.old result table.new }
{
    let same = turn(register, table, spare, work, sheets);
    spare.truncate(0, blank_entry());
    same
}
