// The words of a line, and the lines of an input.
ghost use Rattle.words.specs.Bytes.{NextAt};
ghost use Rattle.words.specs.Words.{WordsOf, Only};
ghost use Rattle.std.specs.Prelude.{IfOk};

use crate::bytes::{next_at, next_other};
use std::alloc::{AllocError, Global};

/// The byte that parts words.
const SPACE: u8 = 32;
/// The byte that ends a line.
const NEWLINE: u8 = 10;

/// A word's place in its line: from `start` on, before `end`.
#[derive(Clone, Copy, Debug, PartialEq, Eq)]
pub struct Place {
    pub start: usize,
    pub end: usize,
}

/// All words of the line, in their order.
pub fn words(heap: Global, line: &[u8]) -> Result<Vec<Place>, AllocError>
    ensures words { IfOk result (λ found. WordsOf line.now found.items) }
    ensures only { IfOk result (λ found. Only line.now found.items) }
{
    let mut found = Vec::new(heap);
    // No `split`: a word is known by its place, which the parts of a split do not tell.
    let mut start = next_other(line, SPACE, 0);
    while start < line.len() {
        let end = next_at(line, SPACE, start);
        found.push(Place { start, end })?;
        start = next_other(line, SPACE, end);
    }
    Ok(found)
}

/// The end of the line that goes on at `from`: the place of the next byte 10, or the length; `from` itself past the end.
pub fn next_line(input: &[u8], from: usize) -> usize
    ensures { NextAt input.now 10 from result }
{
    next_at(input, NEWLINE, from)
}
