// The words that a line may begin with: how each is spelled, and how many numbers follow it.
ghost use Rattle.std.specs.Prelude.{◌≡◌, Some};
ghost use Rattle.orders.specs.Vocabulary.{spelling, numbers_after, begins_book, named_by};

use std::fmt;

/// What a book measures.
#[derive(Clone, Copy, Debug, PartialEq, Eq)]
pub enum Kind {
    Minutes,
    Chain,
    Weakest,
}

/// The first word of a line.
#[derive(Clone, Copy, Debug, PartialEq, Eq)]
pub enum FirstWord {
    Open(Kind),
    Redraw,
    Clear,
    Root,
    Look,
    List,
}

/// All first words.
const ALL: [FirstWord; 8] = [
    FirstWord::Open(Kind::Minutes),
    FirstWord::Open(Kind::Chain),
    FirstWord::Open(Kind::Weakest),
    FirstWord::Redraw,
    FirstWord::Clear,
    FirstWord::Root,
    FirstWord::Look,
    FirstWord::List,
];

impl FirstWord {
    /// The word as it is read and written, by which it is known again.
    // One match of fixed texts, from which `Display` prints and `named` finds.
    pub fn text(self) -> &'static str
        ensures spelled { result.now ≡ spelling self }
        ensures known { named_by (spelling self) ≡ Some self }
    {
        match self {
            FirstWord::Open(Kind::Minutes) => "minutes",
            FirstWord::Open(Kind::Chain) => "chain",
            FirstWord::Open(Kind::Weakest) => "weakest",
            FirstWord::Redraw => "redraw",
            FirstWord::Clear => "clear",
            FirstWord::Root => "root",
            FirstWord::Look => "look",
            FirstWord::List => "list",
        }
    }

    /// How many numbers follow the word.
    pub fn numbers(self) -> usize
        ensures { result ≡ numbers_after self }
    {
        match self {
            FirstWord::Open(_) => 1,
            FirstWord::Redraw => 4,
            FirstWord::Look => 2,
            FirstWord::Clear | FirstWord::Root | FirstWord::List => 0,
        }
    }

    /// Whether the word opens a book.
    pub fn opens(self) -> bool
        ensures { result ≡ begins_book self }
    {
        matches!(self, FirstWord::Open(_))
    }

    /// The first word that is spelled so, if there is one.
    pub fn named(name: &[u8]) -> Option<FirstWord>
        ensures { result ≡ named_by name.now }
    {
        ALL.iter()
            .copied()
            .find(|word| name == word.text().as_bytes())
    }
}

/// The word as it is read and written.
impl fmt::Display for FirstWord {
    ghost output = { λ w. Some (spelling w) };

    fn fmt<W: fmt::Write>(&self, f: &mut fmt::Formatter<W>) -> fmt::Result {
        f.write_str(self.text())
    }
}
