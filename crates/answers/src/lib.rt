// The lines that are printed. Each function appends one line to the text, or fails for want of memory.
#![tactic(auto)]

ghost use Rattle.std.specs.Prelude.{◌≡◌, ◌++◌, string_bytes, OnOk, Some};
ghost use Rattle.answers.specs.Printed.{layer_text, progress_text, refused_line, opening_line, redraw_line, clear_line, root_line, look_line, entry_line};
ghost use Rattle.answers.specs.declared.Layer.TheVariants as layers;
ghost use Rattle.orders.specs.Refusals.{faulty_word, refusal_number as line_refusal_number};
ghost use Rattle.theory.specs.Refusals.{refusal_number};

use orders::refusals::LineRefusal;
use orders::vocabulary::{FirstWord, Kind};
use std::alloc::AllocError;
use std::fmt;
use theory::{Progress, Refusal};

/// Who refuses a line.
#[derive(Clone, Copy, Debug, PartialEq, Eq)]
pub enum Layer {
    /// the line language
    Line,
    /// the book
    Book,
}

impl Layer {
    /// The layer as it is printed.
    // One match of fixed texts, from which `Display` prints.
    pub fn text(self) -> &'static str
        ensures { result.now ≡ layer_text self }
    {
        match self {
            Layer::Line => "line",
            Layer::Book => "book",
        }
    }
}

/// The layer as it is printed.
impl fmt::Display for Layer {
    ghost output = { λ l. Some (layer_text l) };

    fn fmt<W: fmt::Write>(&self, f: &mut fmt::Formatter<W>) -> fmt::Result {
        f.write_str(self.text())
    }
}

/// Why a line is refused, as it is printed.
#[derive(Clone, Copy, Debug, PartialEq, Eq)]
pub struct Fault {
    /// Who refuses it.
    pub layer: Layer,
    /// Its first faulty word, counted from 0.
    pub word: usize,
    /// The number of the refusal.
    pub number: u32,
}

/// What the line language refuses a line for: the word that is at fault, and the refusal's number.
impl From<LineRefusal> for Fault {
    ghost from_gives = { λ r f. f ≡ record { layer = layers.Line; word = faulty_word r; number = line_refusal_number r } };

    fn from(refusal: LineRefusal) -> Fault {
        Fault {
            layer: Layer::Line,
            word: refusal.word(),
            number: refusal.number(),
        }
    }
}

/// What the book refuses a line for: it names the line's first word, and the number of the refusal's case.
impl From<Refusal> for Fault {
    ghost from_gives = { λ r f. f ≡ record { layer = layers.Book; word = 0; number = refusal_number r } };

    fn from(refusal: Refusal) -> Fault {
        Fault {
            layer: Layer::Book,
            word: 0,
            number: refusal as u32,
        }
    }
}

/// How far a book is built, as it is printed. Not a `Display`, since `Progress` is a type of the theory, whose crate holds no functions.
pub fn progress_text(progress: Progress) -> &'static str
    ensures { result.now ≡ progress_text progress }
{
    match progress {
        Progress::Open => "open",
        Progress::Finished => "finished",
    }
}

/// A refusal of the line with this number, counted from 1: its layer, its first faulty word and its number.
pub fn refused(out: &mut String, line: usize, fault: Fault) -> Result<(), AllocError>
    ensures { OnOk result (string_bytes out.new ≡ string_bytes out.old ++ refused_line line fault.layer fault.word fault.number) }
{
    let Fault {
        layer,
        word,
        number,
    } = fault;
    writeln!(out, "refused {line} {layer} {word} {number}")
}

/// An opening of a book with so many sheets.
pub fn opening(out: &mut String, kind: Kind, sheets: u32) -> Result<(), AllocError>
    ensures { OnOk result (string_bytes out.new ≡ string_bytes out.old ++ opening_line kind sheets) }
{
    let word = FirstWord::Open(kind);
    writeln!(out, "{word} {sheets}")
}

/// A redraw that was entered, with the number of redraws held.
pub fn redraw(out: &mut String, held: usize) -> Result<(), AllocError>
    ensures { OnOk result (string_bytes out.new ≡ string_bytes out.old ++ redraw_line held) }
{
    let word = FirstWord::Redraw;
    writeln!(out, "{word} {held}")
}

/// A clear.
pub fn clear(out: &mut String) -> Result<(), AllocError>
    ensures { OnOk result (string_bytes out.new ≡ string_bytes out.old ++ clear_line) }
{
    let word = FirstWord::Clear;
    writeln!(out, "{word}")
}

/// A root that was built, with the builder's number and how far the book is built.
pub fn root(out: &mut String, builder: usize, progress: Progress) -> Result<(), AllocError>
    ensures { OnOk result (string_bytes out.new ≡ string_bytes out.old ++ root_line builder progress) }
{
    let word = FirstWord::Root;
    let progress = progress_text(progress);
    writeln!(out, "{word} {builder} {progress}")
}

/// The answer to a look, by its value's text.
pub fn look(out: &mut String, value: &str) -> Result<(), AllocError>
    ensures { OnOk result (string_bytes out.new ≡ string_bytes out.old ++ look_line value.now) }
{
    let word = FirstWord::Look;
    writeln!(out, "{word} {value}")
}

/// An entry of the table, by its value's text.
pub fn entry(out: &mut String, from: u32, to: u32, value: &str) -> Result<(), AllocError>
    ensures { OnOk result (string_bytes out.new ≡ string_bytes out.old ++ entry_line from to value.now) }
{
    writeln!(out, "entry {from} {to} {value}")
}

#[cfg(test)]
mod tests {
    use super::*;
    use std::test::Fail;

    /// The printed lines, one after another.
    #[test]
    fn lines_are_printed(rt: HostRuntime) -> Result<(), Fail> {
        let mut out = String::new(rt.alloc());
        opening(&mut out, Kind::Minutes, 4)?;
        redraw(&mut out, 3)?;
        let fault = Fault {
            layer: Layer::Line,
            word: 2,
            number: 23,
        };
        refused(&mut out, 7, fault)?;
        root(&mut out, 4, Progress::Finished)?;
        look(&mut out, "2 3")?;
        entry(&mut out, 3, 0, "40")?;
        clear(&mut out)?;
        assert!(rt;
            out.as_str()
                == "minutes 4\nredraw 3\nrefused 7 line 2 23\nroot 4 finished\nlook 2 3\nentry 3 0 40\nclear\n"
        );
        Ok(())
    }
}
