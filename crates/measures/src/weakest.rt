// Weakest: the value of a chain is the lowest grade of its redraws, and higher is better.
ghost use Rattle.std.specs.Prelude.{Some};
ghost use Rattle.measures.specs.WeakestMeaning.{weakest_meaning};
ghost use Rattle.measures.specs.Texts.{weakest_text};
ghost use Rattle.std.proofs.Common.{rules};

use crate::measure::{CLEANEST, Measure};
use std::fmt;
use theory::Redraw;

/// The grade below all line grades, which stands for none.
// A number and no `None`, by the office's rules: none is the grade below the poorest.
const NONE: u8 = 0;

/// The lowest grade of a chain, or none.
#[derive(Debug, Clone, Copy, PartialEq, Eq)]
pub struct Weakest {
    pub grade: u8,
}

/// Weakest is a lawful measure.
impl Measure for Weakest {
    ghost meaning = { weakest_meaning };

    ghost lawful = { Prim.search rules };

    /// A redraw is worth its grade.
    fn worth(redraw: Redraw) -> Self {
        Self {
            grade: redraw.grade,
        }
    }

    /// The empty chain has the cleanest grade.
    fn empty() -> Self {
        Self { grade: CLEANEST }
    }

    /// No chain at all.
    fn none() -> Self {
        Self { grade: NONE }
    }

    /// The lower grade.
    fn join(self, other: Self) -> Self {
        Self {
            grade: self.grade.min(other.grade),
        }
    }

    /// A higher grade is better.
    fn better(self, other: Self) -> bool {
        self.grade > other.grade
    }
}

/// How a value prints.
impl fmt::Display for Weakest {
    ghost output = { λ value. Some (weakest_text value) };

    /// The grade, or the word none.
    fn fmt<W: fmt::Write>(&self, f: &mut fmt::Formatter<W>) -> fmt::Result {
        let grade = self.grade;
        if grade == NONE {
            write!(f, "none")
        } else {
            write!(f, "{grade}")
        }
    }
}
