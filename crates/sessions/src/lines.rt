// The lines of an input.
ghost use Rattle.std.specs.Prelude.{◌≡◌, ◌-◌, ◌≤◌, length};
ghost use Rattle.std.specs.Iterator.{at_most};
ghost use Rattle.sessions.specs.InputLines.{Gives, behind as place_behind};

use words::split::next_line;

/// A line: its number, counted from 1, and its text without the byte that ends it.
#[derive(Clone, Copy, Debug, PartialEq, Eq)]
pub struct Line<'a> {
    /// Its number.
    pub number: usize,
    /// Its text.
    pub text: &'a [u8],
}

/// A cursor over the lines of an input: the place where the next line begins, and how many lines came before it.
#[derive(Drop)]
pub struct Lines<'a> {
    input: &'a [u8],
    place: usize,
    number: usize,
    ghost counted: { number ≤ place },
}

/// The place behind a line that ends at `end`.
fn behind(input: &[u8], end: usize) -> usize
    ensures { result ≡ place_behind input.now end }
{
    if end < input.len() { end + 1 } else { end }
}

impl<'a> Lines<'a> {
    /// A cursor before the first line of the input.
    pub fn new(input: &'a [u8]) -> Lines<'a>
        ensures input { result.input.now ≡ input.now }
        ensures place { result.place ≡ 0 }
        ensures number { result.number ≡ 0 }
    {
        Lines {
            input,
            place: 0,
            number: 0,
        }
    }
}

/// The lines of an input, one after another.
impl<'a> Iterator for Lines<'a> {
    type Item = Line<'a>;

    ghost next_gives = { λ s r t. (t.input.now ≡ s.input.now) × Gives s.input.now s.place s.number r t.place t.number };

    ghost remaining = { λ s. at_most (length s.input.now - s.place) };

    /// The next line, or none at the end of the input.
    fn next(&mut self) -> Option<Line<'a>> {
        let input = self.input;
        let start = self.place;
        if start >= input.len() {
            return None;
        }
        let end = next_line(input, start);
        self.place = behind(input, end);
        self.number += 1;
        Some(Line {
            number: self.number,
            text: &input[start..end],
        })
    }
}
