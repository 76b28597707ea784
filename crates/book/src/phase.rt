// How the phase of a book goes on.
ghost use Rattle.std.specs.Prelude.{◌≡◌};
ghost use Rattle.book.specs.Phases.{advanced};

use theory::{Phase, Progress};

/// A call that was taken: an enter, a clear, or a builder's turn and what the builder says of the book then.
#[derive(Debug, Clone, Copy, PartialEq, Eq)]
pub enum Taken {
    /// A redraw was entered.
    Enter,
    /// The table was emptied.
    Clear,
    /// A round was built.
    Round(Progress),
    /// A root was built.
    Root(Progress),
}

/// Moves the phase on for a call that was taken.
pub(crate) fn advance(phase: &mut Phase, taken: Taken)
    ensures { phase.new ≡ advanced phase.old taken }
{
    *phase = match (*phase, taken) {
        (_, Taken::Enter | Taken::Clear) => Phase::Open,
        (_, Taken::Round(Progress::Finished) | Taken::Root(Progress::Finished)) => Phase::Finished,
        (Phase::Rounds(accepted), Taken::Round(Progress::Open)) => Phase::Rounds(
            accepted.saturating_add(1),
        ),
        (Phase::Roots(done), Taken::Root(Progress::Open)) => Phase::Roots(done.saturating_add(1)),
        (_, Taken::Round(Progress::Open)) => Phase::Rounds(1),
        (_, Taken::Root(Progress::Open)) => Phase::Roots(1),
    };
}
