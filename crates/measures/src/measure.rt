// The trait of a lawful measure, and above it that of a strict one.
ghost use Rattle.std.specs.Prelude.{◌≡◌};
ghost use Rattle.theory.specs.Measures.{Meaning, Lawful, Strict as StrictLaw};

use theory::Redraw;

/// The cleanest line grade, which the empty chain has.
pub(crate) const CLEANEST: u8 = 5;

/// A lawful measure (an ordered monoid of path weights). `Self` is the type of its values.
/// Its meaning is its answers: each depends on what is asked alone, and nothing is refused.
pub trait Measure: Copy {
    ghost meaning: { Meaning Self };

    /// The value of a redraw.
    fn worth(redraw: Redraw) -> Self
        ensures { result ≡ meaning.worth redraw };

    /// The value of the empty chain.
    fn empty() -> Self
        ensures { result ≡ meaning.empty };

    /// The value that stands for no chain at all.
    fn none() -> Self
        ensures { result ≡ meaning.none };

    /// Two values joined, `self` in front.
    fn join(self, other: Self) -> Self
        ensures { result ≡ meaning.join self other };

    /// Whether `self` is better than `other`.
    fn better(self, other: Self) -> bool
        ensures { result ≡ meaning.better self other };

    ghost lawful: { Lawful meaning };
}

/// A strict measure: a lawful one under which a redraw more is always worse.
/// The law more stands in the promise of `worsens`; rounds need it, roots do not.
pub trait Strict: Measure {
    /// A redraw joined at either end of a value other than none gives a strictly worse value.
    fn worsens() -> u8
        ensures { StrictLaw Self.Measure.meaning };
}
