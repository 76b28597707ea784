// Why a line is refused before the book is asked.
ghost use Rattle.std.specs.Prelude.{◌≡◌};
ghost use Rattle.orders.specs.Refusals.{refusal_number, faulty_word};

/// What a line is refused for.
#[derive(Clone, Copy, Debug, PartialEq, Eq)]
pub enum LineRefusal {
    /// its first word is unknown
    FirstWord,
    /// it has not as many words as its first word asks for
    WordCount,
    /// the word at this place of the line, counted from 0, is no number
    Number(usize),
    /// no opening was accepted yet, or it is an opening and one was
    Opening,
}

impl LineRefusal {
    /// The refusal's number.
    // No discriminants, which a case that names a word rules out.
    pub fn number(self) -> u32
        ensures { result ≡ refusal_number self }
    {
        match self {
            LineRefusal::FirstWord => 21,
            LineRefusal::WordCount => 22,
            LineRefusal::Number(_) => 23,
            LineRefusal::Opening => 24,
        }
    }

    /// The first faulty word, counted from 0.
    // One case holds it, and the others name the first word.
    pub fn word(self) -> usize
        ensures { result ≡ faulty_word self }
    {
        match self {
            LineRefusal::Number(word) => word,
            LineRefusal::FirstWord | LineRefusal::WordCount | LineRefusal::Opening => 0,
        }
    }
}
