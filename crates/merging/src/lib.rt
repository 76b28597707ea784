// Merging: a run of new entries is put into a table in place, in the order of the table.
#![tactic(auto)]

ghost use Rattle.std.specs.Prelude.{◌≡◌, ◌+◌, ◌<◌, ◌≤◌, length, drop, nat_lt};
ghost use Rattle.theory.specs.Order.{key_of};
ghost use Rattle.strips.specs.Strips.{SameSlice, used};
ghost use Rattle.merging.specs.Merging.{Mergeable, Merged};

use strips::Strip;
use tables::key;
use theory::Entry;

/// Whether `one` stands after `other` in the order of a table.
fn stands_after<V>(one: &Entry<V>, other: &Entry<V>) -> bool
    ensures { result ≡ nat_lt (key_of other.now) (key_of one.now) }
{
    key(one.from, one.to) > key(other.from, other.to)
}

/// Puts the entries of `run` among those of the table, in place and from the back, so that the keys still rise.
/// Nothing is done if the table has too few places for both.
pub fn merge<V: Copy>(table: &mut Strip<Entry<V>>, mut run: &[Entry<V>])
    ensures slice { SameSlice table.old table.new }
    ensures too_long { length table.old.cells.now < table.old.count + length run.now → (table.new.cells.now ≡ table.old.cells.now) × (table.new.count ≡ table.old.count) }
    ensures count { table.old.count + length run.now ≤ length table.old.cells.now → table.new.count ≡ table.old.count + length run.now }
    ensures rest { drop (table.old.count + length run.now) table.new.cells.now ≡ drop (table.old.count + length run.now) table.old.cells.now }
    ensures merged { table.old.count + length run.now ≤ length table.old.cells.now → Mergeable (used table.old.cells.now table.old.count) run.now → Merged (used table.old.cells.now table.old.count) run.now (used table.new.cells.now table.new.count) }
{
    let mut left = table.count;
    if left > table.places() || run.len() > table.places() - left {
        return;
    }
    table.count += run.len();
    // Written by place, from the back, since entries move within one slice; an iterator cannot read and write it at once.
    // The first `left` entries of the table, and those of `run`, are still to be placed; the place after them all is written next.
    while let [front @ .., last] = run {
        let place = left + front.len();
        if left > 0 && stands_after(&table.cells[left - 1], last) {
            left -= 1;
            table.cells[place] = table.cells[left];
        } else {
            table.cells[place] = *last;
            run = front;
        }
    }
}
