// Pruning: the generated table, laid in the spare strip, goes into the table strip without the entries that senior sheets answer as well.
#![tactic(auto)]

ghost use Rattle.std.specs.Prelude.{◌≡◌, ℕ, ◌+◌, ◌<◌, ◌≤◌, List, length, slice_set};
ghost use Rattle.theory.specs.Measures.{Lawful, same as same_values};
ghost use Rattle.theory.specs.Tables.{Table};
ghost use Rattle.theory.specs.Order.{Sorted};
ghost use Rattle.strips.specs.Strips.{SameSlice};
ghost use Rattle.pruning.specs.Leaving.{Prunable, PrunedInto};
ghost use Rattle.pruning.specs.Pruning.{covered_by, same_entry, stands_at};

use measures::Measure;
use strips::{Strip, at, wipe};
use tables::{best_over_seniors, blank_entry};
use theory::Entry;

/// Whether a sheet senior to both ends of the entry has two laid entries whose join is not worse.
fn covered<M: Measure>(laid: &[Entry<M>], entry: Entry<M>) -> bool
    ensures { (n : ℕ) → n ≤ 65536 → Sorted M.Measure.meaning n laid.now → result ≡ covered_by M.Measure.meaning laid.now entry }
{
    let best = best_over_seniors(laid, entry.from, entry.to);
    !entry.value.better(best)
}

/// Whether neither of two values is better.
// Of a measure only what the trait says is known, so values are compared by its `better`, and not by a `PartialEq` of their type.
fn ties<M: Measure>(one: M, other: M) -> bool
    ensures { result ≡ same_values M.Measure.meaning one other }
{
    !one.better(other) && !other.better(one)
}

/// Whether two entries are the same.
fn equals<M: Measure>(one: Entry<M>, other: Entry<M>) -> bool
    ensures { result ≡ same_entry M.Measure.meaning one other }
{
    one.from == other.from && one.to == other.to && ties(one.value, other.value)
}

/// Whether the entry stands at the place after those in use, among the first `before`.
fn stands<M: Measure>(table: &Strip<Entry<M>>, before: usize, entry: Entry<M>) -> bool
    ensures { result ≡ stands_at M.Measure.meaning table.now.cells.now before table.now.count entry }
{
    table.count < before && equals(entry, at(table.cells, table.count, entry))
}

// The answer is a plain yes or no; `prune` has places for all, so `Full` cannot come there.
/// Puts the entry after those in use, if there is a place, and answers whether there is one and the entry stood there before, among the first `before`.
fn keep<M: Measure>(table: &mut Strip<Entry<M>>, before: usize, entry: Entry<M>) -> bool
    ensures answer { table.old.count < length table.old.cells.now → result ≡ stands_at M.Measure.meaning table.old.cells.now before table.old.count entry }
    ensures cells { table.new.cells.now ≡ slice_set table.old.cells.now table.old.count entry }
    ensures count { table.old.count < length table.old.cells.now → table.new.count ≡ table.old.count + 1 }
    ensures slice { SameSlice table.old table.new }
{
    let stood = stands(table, before, entry);
    table.push(entry).is_ok() && stood
}

/// Puts the entries of the laid table that no sheet senior to both ends answers as well into the table, in order, in place of the present entries,
/// and makes the rest of the table blank. Answers whether they are the present entries.
// A plain yes or no; how many there are is the strip's count.
pub fn prune<M: Measure>(laid: &[Entry<M>], table: &mut Strip<Entry<M>>) -> bool
    ensures slice { SameSlice table.old table.new }
    ensures pruned { Lawful M.Measure.meaning → (n : ℕ) (g : Table M) (es : List (Entry M)) → Prunable M.Measure.meaning n g laid.now es table.old → PrunedInto M.Measure.meaning n g es (length table.old.cells.now) result table.new }
{
    let before = table.count;
    table.count = 0;
    let mut same = true;
    for next in laid {
        let goes = covered(laid, *next);
        if !goes {
            same &= keep(table, before, *next);
        }
    }
    wipe(table.cells, table.count, blank_entry());
    same && table.count == before
}
