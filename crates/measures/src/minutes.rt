// Minutes: the value of a chain is the sum of the minutes of its redraws, and fewer is better.
ghost use Rattle.std.specs.Prelude.{Some};
ghost use Rattle.measures.specs.MinutesMeaning.{minutes_meaning};
ghost use Rattle.measures.specs.Texts.{minutes_text};
ghost use Rattle.std.proofs.Common.{rules};

use crate::measure::{Measure, Strict};
use std::fmt;
use theory::Redraw;

/// What stands for none; a sum that comes to so many minutes is none too.
// A number and no `None`, by the office's rules: a sum runs into it.
const NONE: u32 = u32::MAX;

/// The minutes of a chain, or none.
#[derive(Debug, Clone, Copy, PartialEq, Eq)]
pub struct Minutes {
    pub minutes: u32,
}

/// Minutes is a lawful measure.
impl Measure for Minutes {
    ghost meaning = { minutes_meaning };

    ghost lawful = { Prim.search rules };

    /// A redraw is worth its minutes.
    fn worth(redraw: Redraw) -> Self {
        Self {
            minutes: u32::from(redraw.minutes),
        }
    }

    /// The empty chain takes no minutes.
    fn empty() -> Self {
        Self { minutes: 0 }
    }

    /// No chain at all.
    fn none() -> Self {
        Self { minutes: NONE }
    }

    /// The sum, which stops at the number that stands for none.
    fn join(self, other: Self) -> Self {
        Self {
            minutes: self.minutes.saturating_add(other.minutes),
        }
    }

    /// Fewer minutes are better.
    fn better(self, other: Self) -> bool {
        self.minutes < other.minutes
    }
}

/// Minutes is a strict measure.
impl Strict for Minutes {
    /// Only its promise counts; the number says nothing.
    fn worsens() -> u8 {
        0
    }
}

/// How a value prints.
impl fmt::Display for Minutes {
    ghost output = { λ value. Some (minutes_text value) };

    /// The number of minutes, or the word none.
    fn fmt<W: fmt::Write>(&self, f: &mut fmt::Formatter<W>) -> fmt::Result {
        let minutes = self.minutes;
        if minutes == NONE {
            write!(f, "none")
        } else {
            write!(f, "{minutes}")
        }
    }
}
