// One search serves both ways: what a redraw, a join and the table's answer are to a search that goes out from the root or in towards it.
ghost use Rattle.std.specs.Prelude.{◌≡◌, ℕ, ◌≤◌};
ghost use Rattle.theory.specs.Tables.{held, answer as table_answer};
ghost use Rattle.theory.specs.Order.{Sorted};
ghost use Rattle.theory.specs.Searches.{facing, facing_redraw, facing_table};

use measures::Measure;
use tables::{answer, in_order, joined};
use theory::{Entry, Redraw, Way};

// `near` and `far` of generation have it for an entry; a trait for both would be longer.
/// The ends of a redraw: the one that a search reaches first, and the one to which the redraw leads it.
pub fn ends(way: Way, redraw: Redraw) -> (u16, u16)
    ensures near { result.0 ≡ (facing_redraw way redraw).from }
    ensures far { result.1 ≡ (facing_redraw way redraw).to }
{
    in_order(way, redraw.from, redraw.to)
}

/// The value of a sheet joined with a redraw that leads on from it.
pub fn extend<M: Measure>(way: Way, value: M, redraw: Redraw) -> M
    ensures { result ≡ (facing way M.Measure.meaning).join value ((facing way M.Measure.meaning).worth (facing_redraw way redraw)) }
{
    joined(way, value, M::worth(redraw))
}

/// What the table already answers between the root and a sheet.
pub fn present<M: Measure>(way: Way, table: &[Entry<M>], root: u16, sheet: u16) -> M
    ensures { (n : ℕ) → n ≤ 65536 → Sorted M.Measure.meaning n table.now → result ≡ table_answer (facing way M.Measure.meaning) (facing_table way (held M.Measure.meaning table.now)) root sheet }
{
    let (s, t) = in_order(way, root, sheet);
    answer(table, s, t)
}
