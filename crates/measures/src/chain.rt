// Chain: a value counts the steps of a chain and has the lowest of their grades; fewer steps are better, then a higher grade.
ghost use Rattle.std.specs.Prelude.{Some};
ghost use Rattle.measures.specs.ChainMeaning.{chain_meaning};
ghost use Rattle.measures.specs.Texts.{chain_text};
ghost use Rattle.measures.specs.ChainLaws.{chain_lawful};

use crate::measure::{CLEANEST, Measure, Strict};
use std::fmt;
use theory::Redraw;

/// A chain of so many steps, or of more, counts as none.
const TOO_MANY: u16 = u16::MAX;

/// No chain, or the steps of a chain and its lowest grade.
// Not an `Option`: the orphan rule refuses `Display` for one, and a struct around one is opened and closed in every match.
#[derive(Debug, Clone, Copy, PartialEq, Eq)]
pub enum Chain {
    /// No chain.
    None,
    /// The steps of a chain, and the lowest of their grades.
    Steps { steps: u16, grade: u8 },
}

/// Chain is a lawful measure.
impl Measure for Chain {
    ghost meaning = { chain_meaning };

    ghost lawful = { chain_lawful };

    /// A redraw is one step of its own grade.
    fn worth(redraw: Redraw) -> Self {
        Self::Steps {
            steps: 1,
            grade: redraw.grade,
        }
    }

    /// The empty chain has no steps and the cleanest grade.
    fn empty() -> Self {
        Self::Steps {
            steps: 0,
            grade: CLEANEST,
        }
    }

    /// No chain at all.
    fn none() -> Self {
        Self::None
    }

    /// The steps together with the lower grade, or none where there are too many steps.
    fn join(self, other: Self) -> Self {
        match (self, other) {
            (Chain::Steps { steps: a, grade: g }, Chain::Steps { steps: b, grade: h }) => {
                match a.saturating_add(b) {
                    TOO_MANY => Self::None,
                    steps => Self::Steps {
                        steps,
                        grade: g.min(h),
                    },
                }
            }
            _ => Self::None,
        }
    }

    /// Fewer steps are better, then a higher grade; any chain is better than none.
    fn better(self, other: Self) -> bool {
        match (self, other) {
            (Chain::None, _) => false,
            (Chain::Steps { .. }, Chain::None) => true,
            (Chain::Steps { steps: a, grade: g }, Chain::Steps { steps: b, grade: h }) => {
                a < b || (a == b && h < g)
            }
        }
    }
}

/// Chain is a strict measure.
impl Strict for Chain {
    /// Only its promise counts; the number says nothing.
    fn worsens() -> u8 {
        0
    }
}

/// How a value prints.
impl fmt::Display for Chain {
    ghost output = { λ value. Some (chain_text value) };

    /// The steps, a space and the grade, or the word none.
    fn fmt<W: fmt::Write>(&self, f: &mut fmt::Formatter<W>) -> fmt::Result {
        match *self {
            Chain::None => write!(f, "none"),
            Chain::Steps { steps, grade } => write!(f, "{steps} {grade}"),
        }
    }
}
