// A session: a book, and one command after another carried out on it and answered.
ghost use Rattle.std.specs.Prelude.{string_bytes, OnOk, Some};
ghost use Rattle.answers.specs.Printed.{entry_line};
ghost use Rattle.sessions.specs.Attending.{ToldAs, Keeps, Answered, entries_text, call_of};
ghost use Rattle.theory.specs.Books.{enter as enter_call, clear as clear_call, root as root_call, look as look_call, list as list_call};

use orders::commands::Command;
use priced::PricedBook;
use std::alloc::AllocError;
use std::fmt::Display;
use theory::{Entry, RedrawNumbers};

/// Prints an entry of the table.
fn print_entry<V: Display + Copy>(entry: Entry<V>, out: &mut String) -> Result<(), AllocError>
    ensures { OnOk result (ToldAs V.Display.output (string_bytes out.old) (λ text. entry_line entry.from entry.to (text entry.value)) (string_bytes out.new)) }
{
    let value = entry.value;
    let text = format!(in *out.allocator(); "{value}")?;
    answers::entry(
        out,
        u32::from(entry.from),
        u32::from(entry.to),
        text.as_str(),
    )
}

/// Prints the entries, a line each.
fn print_entries<V: Display + Copy>(
    entries: &[Entry<V>],
    out: &mut String,
) -> Result<(), AllocError>
    ensures { OnOk result (ToldAs V.Display.output (string_bytes out.old) (λ text. entries_text text entries.now) (string_bytes out.new)) }
{
    for entry in entries {
        print_entry(*entry, out)?;
    }
    Ok(())
}

/// A book, and the text to which the answers to its lines are added.
#[derive(Drop)]
pub struct Session<'b, 'o, B> {
    /// The book that lines are carried out on.
    pub book: &'b mut B,
    /// What is printed.
    pub out: &'o mut String,
}

impl<'b, 'o, B: PricedBook> Session<'b, 'o, B>
where
    B::Value: Display,
{
    /// Enters a redraw.
    fn enter(&mut self, number: usize, asked: RedrawNumbers) -> Result<(), AllocError>
        ensures answers { Answered B.view B.Value.Measure.meaning B.Value.Display.output number (Some (enter_call asked.from asked.to asked.minutes asked.grade)) self.old self.new result }
        ensures keeps { Keeps self.old self.new }
    {
        match self.book.enter(asked) {
            Ok(held) => answers::redraw(self.out, held as usize),
            Err(refusal) => answers::refused(self.out, number, refusal.into()),
        }
    }

    /// Clears the book.
    fn clear(&mut self, number: usize) -> Result<(), AllocError>
        ensures answers { Answered B.view B.Value.Measure.meaning B.Value.Display.output number (Some clear_call) self.old self.new result }
        ensures keeps { Keeps self.old self.new }
    {
        self.book.clear();
        answers::clear(self.out)
    }

    /// Builds the next root.
    fn root(&mut self, number: usize) -> Result<(), AllocError>
        ensures answers { Answered B.view B.Value.Measure.meaning B.Value.Display.output number (Some root_call) self.old self.new result }
        ensures keeps { Keeps self.old self.new }
    {
        match self.book.root() {
            Ok(built) => answers::root(self.out, built.number as usize, built.progress),
            Err(refusal) => answers::refused(self.out, number, refusal.into()),
        }
    }

    /// Answers a pair of sheets.
    fn look(&mut self, number: usize, from: u32, to: u32) -> Result<(), AllocError>
        ensures answers { Answered B.view B.Value.Measure.meaning B.Value.Display.output number (Some (look_call from to)) self.old self.new result }
        ensures keeps { Keeps self.old self.new }
    {
        match self.book.look(from, to) {
            Ok(value) => {
                let text = format!(in *self.out.allocator(); "{value}")?;
                answers::look(self.out, text.as_str())
            }
            Err(refusal) => answers::refused(self.out, number, refusal.into()),
        }
    }

    /// Lists the entries of the table.
    fn list(&mut self, number: usize) -> Result<(), AllocError>
        ensures answers { Answered B.view B.Value.Measure.meaning B.Value.Display.output number (Some list_call) self.old self.new result }
        ensures keeps { Keeps self.old self.new }
    {
        match self.book.list() {
            Ok(entries) => print_entries(entries, self.out),
            Err(refusal) => answers::refused(self.out, number, refusal.into()),
        }
    }

    /// Carries the command of the line with this number out on the book, and prints the answer or the refusal.
    pub fn attend(&mut self, number: usize, command: Command) -> Result<(), AllocError>
        ensures answers { Answered B.view B.Value.Measure.meaning B.Value.Display.output number (call_of command) self.old self.new result }
        ensures keeps { Keeps self.old self.new }
    {
        match command {
            Command::Open(_, _) => Ok(()),
            Command::Redraw(asked) => self.enter(number, asked),
            Command::Clear => self.clear(number),
            Command::Root => self.root(number),
            Command::Look { from, to } => self.look(number, from, to),
            Command::List => self.list(number),
        }
    }
}
