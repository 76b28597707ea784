// A session: every line of the input is read, carried out and answered.
ghost use Rattle.std.specs.Prelude.{◌≡◌, [], IfOk, string_bytes, OnOk};
ghost use Rattle.sessions.specs.Attending.{Keeps};
ghost use Rattle.sessions.specs.InputLines.{ahead};
ghost use Rattle.sessions.specs.Serving.{ReadAs, LineServed, Served, LineAwaited, OpeningAwaited};

use crate::attend::Session;
use crate::lines::{Line, Lines};
use orders::commands::{Command, read};
use orders::refusals::LineRefusal;
use orders::vocabulary::Kind;
use priced::PricedBook;
use std::alloc::{AllocError, Global};
use std::fmt::Display;
use words::split::words;

/// An opening that the line language takes: the number of its line, the kind of the book and its sheets.
#[derive(Clone, Copy, Debug, PartialEq, Eq)]
pub struct Opening {
    /// The number of its line.
    pub number: usize,
    /// The kind of the book.
    pub kind: Kind,
    /// How many sheets the book is to have.
    pub sheets: u32,
}

/// What a line asks for, where an opening was accepted before or not; none where the line has no words.
// `opened` is a plain yes or no of the rules, which goes to `read` as it is.
fn asked(
    heap: Global,
    text: &[u8],
    opened: bool,
) -> Result<Option<Result<Command, LineRefusal>>, AllocError>
    ensures { IfOk result (λ reading. ReadAs text.now opened reading) }
{
    let places = words(heap, text)?;
    if places.is_empty() {
        return Ok(None);
    }
    Ok(Some(read(text, &places, opened)))
}

impl<'b, 'o, B: PricedBook> Session<'b, 'o, B>
where
    B::Value: Display,
{
    /// Carries the line out on the book, and prints its answer or its refusal; nothing for a line without words.
    fn serve_line(&mut self, line: Line) -> Result<(), AllocError>
        ensures served { OnOk result (LineServed B.Value.Measure.meaning B.Value.Display.output line.entry.number line.entry.text.now (B.view self.old.book.now) (B.view self.new.book.now) (string_bytes self.old.out.now) (string_bytes self.new.out.now)) }
        ensures keeps { Keeps self.old self.new }
    {
        let Some(reading) = asked(*self.out.allocator(), line.text, true)? else {
            return Ok(());
        };
        match reading {
            Ok(command) => self.attend(line.number, command),
            Err(refusal) => answers::refused(self.out, line.number, refusal.into()),
        }
    }

    /// Serves every further line of the input.
    pub fn serve(&mut self, lines: &mut Lines) -> Result<(), AllocError>
        ensures input { lines.new.input.now ≡ lines.old.input.now }
        ensures ended { OnOk result (ahead lines.new.input.now lines.new.place ≡ []) }
        ensures served { OnOk result (Served B.Value.Measure.meaning B.Value.Display.output lines.old.number (ahead lines.old.input.now lines.old.place) (B.view self.old.book.now) (B.view self.new.book.now) (string_bytes self.old.out.now) (string_bytes self.new.out.now)) }
        ensures keeps { Keeps self.old self.new }
    {
        // A `for` over a lent cursor would not tell where it stands afterwards
        while let Some(line) = lines.next() {
            self.serve_line(line)?;
        }
        Ok(())
    }
}

/// Reads the line before any book is open: answers an opening, and prints the refusal of any other line with words.
fn open_line(line: Line, out: &mut String) -> Result<Option<Opening>, AllocError>
    ensures { IfOk result (λ found. LineAwaited line.entry.number line.entry.text.now found (string_bytes out.old) (string_bytes out.new)) }
{
    match asked(*out.allocator(), line.text, false)? {
        Some(Ok(Command::Open(kind, sheets))) => {
            Ok(Some(Opening {
                number: line.number,
                kind,
                sheets,
            }))
        }
        Some(Err(refusal)) => {
            answers::refused(out, line.number, refusal.into())?;
            Ok(None)
        }
        _ => Ok(None),
    }
}

/// Reads lines until one is an opening, which it answers; none at the end of the input.
pub fn await_opening(lines: &mut Lines, out: &mut String) -> Result<Option<Opening>, AllocError>
    ensures input { lines.new.input.now ≡ lines.old.input.now }
    ensures awaited { IfOk result (λ found. OpeningAwaited lines.old.number (ahead lines.old.input.now lines.old.place) found (ahead lines.new.input.now lines.new.place) lines.new.number (string_bytes out.old) (string_bytes out.new)) }
{
    // A `for` over a lent cursor would not tell where it stands afterwards
    while let Some(line) = lines.next() {
        if let Some(opening) = open_line(line, out)? {
            return Ok(Some(opening));
        }
    }
    Ok(None)
}
