// Keys of entries, binary search by key, and the list of a sheet, which lies between two keys.
ghost use Rattle.std.specs.Prelude.{◌≡◌, ◌≤◌, length};
ghost use Rattle.theory.specs.Order.{key as key_spec, key_of};
ghost use Rattle.tables.specs.Places.{Rising, FirstAt, Part};
ghost use Rattle.tables.specs.SheetLists.{list_begin, list_end};

use strips::part;
use theory::{Entry, Way};

/// How far apart the keys of a sheet and of the next one begin.
const JUNIOR_STEP: u64 = 131072;

/// How far behind its out keys the in keys of a sheet begin.
const IN_STEP: u64 = 65536;

/// The key of an ordered pair of sheets: junior sheet, then out before in, then senior sheet.
// One number and no struct with a derived order: one comparison orders two entries, and the theorems count with it.
pub fn key(from: u16, to: u16) -> u64
    ensures { result ≡ key_spec from to }
{
    if to < from {
        from as u64 * JUNIOR_STEP + to as u64
    } else {
        to as u64 * JUNIOR_STEP + IN_STEP + from as u64
    }
}

/// The first place whose key is not below `wanted`, or the length without one (binary search).
pub fn first_at<M: Copy>(table: &[Entry<M>], wanted: u64) -> usize
    ensures within { result ≤ length table.now }
    ensures first { Rising key_of table.now → FirstAt table.now wanted result }
{
    table.partition_point(|entry| key(entry.from, entry.to) < wanted)
}

/// The list of a sheet: its entries that lead out to sheets senior to it, or those that lead in from there.
pub fn list_of<M: Copy>(table: &[Entry<M>], way: Way, sheet: u16) -> &[Entry<M>]
    ensures { Rising key_of table.now → Part table.now (list_begin way sheet) (list_end way sheet) result.now }
{
    let outs = sheet as u64 * JUNIOR_STEP;
    let ins = outs + IN_STEP;
    let (begin, end) = match way {
        Way::Out => (outs, ins),
        Way::In => (ins, outs + JUNIOR_STEP),
    };
    part(table, first_at(table, begin), first_at(table, end))
}
