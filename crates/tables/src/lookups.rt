// What a table holds for a pair of sheets, and the best join of two sorted lists.
ghost use Rattle.std.specs.Prelude.{◌≡◌, ℕ, ◌≤◌};
ghost use Rattle.theory.specs.Measures.{pick};
ghost use Rattle.theory.specs.Tables.{held, answer as answer_spec};
ghost use Rattle.theory.specs.Order.{key_of, Sorted};
ghost use Rattle.tables.specs.Places.{Rising};
ghost use Rattle.tables.specs.Walks.{Walkable, Walked, over_seniors};

use crate::keys::{first_at, key, list_of};
use measures::Measure;
use theory::{Entry, Way};

/// The value of the entry from one sheet to another, none without one.
pub fn find<M: Measure>(table: &[Entry<M>], from: u16, to: u16) -> M
    ensures { Rising key_of table.now → result ≡ held M.Measure.meaning table.now from to }
{
    let place = first_at(table, key(from, to));
    match table.get(place) {
        Some(entry) if entry.from == from && entry.to == to => entry.value,
        _ => M::none(),
    }
}

/// The better of two values, the first where neither is better.
fn better_of<M: Measure>(first: M, second: M) -> M
    ensures { result ≡ pick M.Measure.meaning first second }
{
    if second.better(first) { second } else { first }
}

/// The better of `best` and the join of two entries.
fn improved<M: Measure>(best: M, front: Entry<M>, back: Entry<M>) -> M
    ensures { result ≡ pick M.Measure.meaning best (M.Measure.meaning.join front.value back.value) }
{
    better_of(best, front.value.join(back.value))
}

/// The best of `start` and the joins of an out entry and an in entry that meet at a sheet.
/// The out entries rise in the sheet where they end, the in entries in the sheet where they begin.
pub fn walk<M: Measure>(mut outs: &[Entry<M>], mut ins: &[Entry<M>], start: M) -> M
    ensures { Walkable M.Measure.meaning outs.now ins.now start → Walked M.Measure.meaning outs.now ins.now start result }
{
    let mut best = start;
    // Cut where it is passed: a rest that the pattern names is made on every turn, and the walk takes twice the time.
    while let [front, ..] = outs {
        let [back, ..] = ins else {
            return best;
        };
        if front.to < back.from {
            outs = &outs[1..];
        } else if back.from < front.to {
            ins = &ins[1..];
        } else {
            best = improved(best, *front, *back);
            outs = &outs[1..];
            ins = &ins[1..];
        }
    }
    best
}

/// The best join of an entry from `s` and an entry to `t` that meet at a sheet senior to both, none without one.
pub fn best_over_seniors<M: Measure>(table: &[Entry<M>], s: u16, t: u16) -> M
    ensures { (n : ℕ) → n ≤ 65536 → Sorted M.Measure.meaning n table.now → result ≡ over_seniors M.Measure.meaning (held M.Measure.meaning table.now) s t }
{
    walk(
        list_of(table, Way::Out, s),
        list_of(table, Way::In, t),
        M::none(),
    )
}

/// The answer of a table: the empty chain from a sheet to itself; else the better of the entry from `s` to `t`
/// and the best join over the sheets senior to both.
pub fn answer<M: Measure>(table: &[Entry<M>], s: u16, t: u16) -> M
    ensures { (n : ℕ) → n ≤ 65536 → Sorted M.Measure.meaning n table.now → result ≡ answer_spec M.Measure.meaning (held M.Measure.meaning table.now) s t }
{
    if s == t {
        return M::empty();
    }
    better_of(find(table, s, t), best_over_seniors(table, s, t))
}
