// A line's words as tokens: names and numbers, each a part of the line.
ghost use Rattle.std.specs.Prelude.{◌≡◌};
ghost use Rattle.words.specs.Tokens.{word_at, only_digits, TokenOf};

use crate::split::Place;

/// A word: made of digits only, or any other.
#[derive(Clone, Copy, Debug, PartialEq, Eq)]
pub enum Token<'a> {
    Name(&'a [u8]),
    Number(&'a [u8]),
}

// As `part` of strips has it for two places; this crate rests on no other.
/// The bytes of the line at the place, or none where the place is not within the line.
fn part<'a>(line: &'a [u8], place: Place) -> &'a [u8]
    ensures { result.now ≡ word_at line.now place }
{
    line.get(place.start..place.end).unwrap_or(b"")
}

/// Whether there are digits in the word, and nothing else.
fn digits_only(word: &[u8]) -> bool
    ensures { result ≡ only_digits word.now }
{
    !word.is_empty() && word.iter().all(u8::is_ascii_digit)
}

/// The token at the place: the empty name where the place is not within the line.
pub fn token_at<'a>(line: &'a [u8], place: Place) -> Token<'a>
    ensures { TokenOf (word_at line.now place) result }
{
    let word = part(line, place);
    if digits_only(word) {
        Token::Number(word)
    } else {
        Token::Name(word)
    }
}
