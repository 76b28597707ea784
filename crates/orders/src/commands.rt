// The commands that lines give.
ghost use Rattle.std.specs.Prelude.{◌≡◌};
ghost use Rattle.orders.specs.Commands.{first_word_of, number_or_fault, command_at, read_as};
ghost use Rattle.words.specs.Tokens.{word_at};
ghost use Rattle.orders.specs.Vocabulary.{named_by};

use crate::refusals::LineRefusal;
use crate::vocabulary::{FirstWord, Kind};
use theory::RedrawNumbers;
use words::numbers::number;
use words::split::Place;
use words::tokens::{Token, token_at};

/// What a line asks for.
#[derive(Clone, Copy, Debug, PartialEq, Eq)]
pub enum Command {
    /// make a book of this kind with so many sheets
    Open(Kind, u32),
    /// enter a redraw
    Redraw(RedrawNumbers),
    /// clear the book
    Clear,
    /// build the next root
    Root,
    /// answer a pair of sheets
    Look { from: u32, to: u32 },
    /// list the table's entries
    List,
}

/// The word that a line with the command begins with.
impl From<Command> for FirstWord {
    ghost from_gives = { λ c w. w ≡ first_word_of c };

    fn from(command: Command) -> FirstWord {
        match command {
            Command::Open(kind, _) => FirstWord::Open(kind),
            Command::Redraw(_) => FirstWord::Redraw,
            Command::Clear => FirstWord::Clear,
            Command::Root => FirstWord::Root,
            Command::Look { .. } => FirstWord::Look,
            Command::List => FirstWord::List,
        }
    }
}

/// The first word at the place, if it is one.
fn first_word(line: &[u8], place: Place) -> Option<FirstWord>
    ensures { result ≡ named_by (word_at line.now place) }
{
    match token_at(line, place) {
        Token::Name(name) => FirstWord::named(name),
        Token::Number(_) => None,
    }
}

/// The number that is the line's word `at`, found at the place, or the refusal of that word.
fn number_at(line: &[u8], at: usize, place: Place) -> Result<u32, LineRefusal>
    ensures { result ≡ number_or_fault line.now at place }
{
    match token_at(line, place) {
        Token::Number(digits) => number(digits).ok_or(LineRefusal::Number(at)),
        Token::Name(_) => Err(LineRefusal::Number(at)),
    }
}

/// The command of a first word and the words that follow it: as many as it takes, and each of them a number.
fn command_at(line: &[u8], word: FirstWord, rest: &[Place]) -> Result<Command, LineRefusal>
    ensures { result ≡ command_at line.now word rest.now }
{
    if rest.len() != word.numbers() {
        return Err(LineRefusal::WordCount);
    }
    // The patterns name the words, whose count was asked before.
    match (word, rest) {
        (FirstWord::Open(kind), [sheets]) => Ok(Command::Open(kind, number_at(line, 1, *sheets)?)),
        (FirstWord::Redraw, [from, to, minutes, grade]) => Ok(Command::Redraw(RedrawNumbers {
            from: number_at(line, 1, *from)?,
            to: number_at(line, 2, *to)?,
            minutes: number_at(line, 3, *minutes)?,
            grade: number_at(line, 4, *grade)?,
        })),
        (FirstWord::Clear, []) => Ok(Command::Clear),
        (FirstWord::Root, []) => Ok(Command::Root),
        (FirstWord::Look, [from, to]) => Ok(Command::Look {
            from: number_at(line, 1, *from)?,
            to: number_at(line, 2, *to)?,
        }),
        (FirstWord::List, []) => Ok(Command::List),
        _ => Err(LineRefusal::WordCount),
    }
}

/// The command of the line whose words are at the places, where an opening was accepted before or not.
// `opened` is a plain yes or no of the rules: whether an opening was accepted before.
pub fn read(line: &[u8], places: &[Place], opened: bool) -> Result<Command, LineRefusal>
    ensures { result ≡ read_as line.now places.now opened }
{
    let [first, rest @ ..] = places else {
        return Err(LineRefusal::FirstWord);
    };
    let word = first_word(line, *first).ok_or(LineRefusal::FirstWord)?;
    let command = command_at(line, word, rest)?;
    if opened == word.opens() {
        return Err(LineRefusal::Opening);
    }
    Ok(command)
}
