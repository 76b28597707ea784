// How an entry is written: the blank one, and the one between two sheets, out from the first or in to it.
ghost use Rattle.std.specs.Prelude.{◌≡◌};
ghost use Rattle.theory.specs.Order.{blank_entry as blank_spec};
ghost use Rattle.theory.specs.Searches.{facing, new_entry};
ghost use Rattle.tables.specs.SheetLists.{ordered};

use measures::Measure;
use theory::{Entry, Way};

/// The entry that stands in every place that is not in use.
pub fn blank_entry<M: Measure>() -> Entry<M>
    ensures { result ≡ blank_spec M.Measure.meaning }
{
    Entry {
        from: 0,
        to: 0,
        value: M::none(),
    }
}

/// The two as they stand along the redraws: the near one in front on the way out, the far one on the way in.
pub fn in_order<T>(way: Way, near: T, far: T) -> (T, T)
    ensures { result ≡ ordered way near far }
{
    match way {
        Way::Out => (near, far),
        Way::In => (far, near),
    }
}

/// Two values joined along the redraws, the near one in front on the way out.
pub fn joined<M: Measure>(way: Way, near: M, far: M) -> M
    ensures { result ≡ (facing way M.Measure.meaning).join near far }
{
    let (front, back) = in_order(way, near, far);
    front.join(back)
}

/// The entry that leads out from the sheet `near` to the sheet `far`, or in from there.
pub fn entry_between<M: Copy>(way: Way, near: u16, far: u16, value: M) -> Entry<M>
    ensures { result ≡ new_entry way near far value }
{
    let (from, to) = in_order(way, near, far);
    Entry { from, to, value }
}
