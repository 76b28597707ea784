// A whole session: the order sheet goes in, and what is printed for it comes out.
ghost use Rattle.std.specs.Prelude.{◌≡◌, true, [], ◌++◌, Some, None, IfOk, OnOk, MatchResult, Ok, Err, vec_len, string_bytes};
ghost use Rattle.theory.specs.Books.{making_refusal};
ghost use Rattle.answers.specs.Printed.{opening_line};
ghost use Rattle.book.specs.Views.{refusal_in};
ghost use Rattle.sessions.specs.Serving.{Served};
ghost use Rattle.sessions.specs.InputLines.{ahead};
ghost use Rattle.desk.specs.Desk.{opening_refusal, ServedBook, Opened, Session as WholeSession};
ghost use Rattle.desk.specs.Sizes.{HasPlaces};
ghost use Rattle.book.specs.Makings.{Makeable};

use book::{Checked, check};
use ledgers::KeptBook;
use measures::{Chain, Measure, Minutes, Weakest};
use orders::vocabulary::Kind;
use priced::PricedBook;
use sessions::attend::Session;
use sessions::lines::Lines;
use sessions::serve::{Opening, await_opening};
use std::alloc::{AllocError, Global};
use std::fmt::Display;
use tables::blank_entry;
use theory::{Entry, Redraw, Refusal};

/// The program's places for redraws.
const REDRAWS: usize = 512;

/// The program's places for entries.
const ENTRIES: usize = 1024;

/// The program's places for sheets.
const SHEETS: u32 = 64;

/// So many copies of a record.
fn filled<T: Copy>(heap: Global, record: T, places: usize) -> Result<Vec<T>, AllocError>
    ensures { IfOk result (λ v. vec_len v ≡ places) }
{
    Ok(vec![in heap; record; places]?)
}

/// The memory that the program lends to a book.
#[derive(Drop)]
struct Memory<M: Measure> {
    register: Vec<Redraw>,
    table: Vec<Entry<M>>,
    spare: Vec<Entry<M>>,
    work: Vec<M>,
    marks: Vec<u8>,
}

impl<M: Measure> Memory<M> {
    /// Memory for a book of so many sheets: a work and a mark place for each sheet, as far as the program has them.
    fn new(heap: Global, sheets: u32) -> Result<Memory<M>, AllocError>
        ensures { IfOk result (λ v. HasPlaces (vec_len v.register) (vec_len v.table) (vec_len v.spare) (vec_len v.work) (vec_len v.marks) sheets) }
    {
        let places = sheets.min(SHEETS) as usize;
        let entry = blank_entry();
        Ok(Memory {
            register: filled(heap, Redraw::default(), REDRAWS)?,
            table: filled(heap, entry, ENTRIES)?,
            spare: filled(heap, entry, ENTRIES)?,
            work: filled(heap, M::none(), places)?,
            marks: filled(heap, 0, places)?,
        })
    }

    /// The book's check of this memory for so many sheets.
    fn check(&self, sheets: u32) -> Result<u16, Refusal>
        ensures refusal { refusal_in result ≡ making_refusal sheets (vec_len self.now.register) (vec_len self.now.table) (vec_len self.now.spare) (vec_len self.now.work) (vec_len self.now.marks) }
        ensures lengths { IfOk result (λ n. (n ≡ sheets) × Makeable n (vec_len self.now.register) (vec_len self.now.table) (vec_len self.now.spare) (vec_len self.now.work) (vec_len self.now.marks)) }
    {
        check(
            sheets,
            &self.register,
            &self.table,
            &self.spare,
            &self.work,
            &self.marks,
        )
    }
}

/// Serves the further lines on the book.
fn serve<B: PricedBook>(book: &mut B, lines: &mut Lines, out: &mut String) -> Result<(), AllocError>
where
    B::Value: Display,
    ensures { OnOk result (Served B.Value.Measure.meaning B.Value.Display.output lines.old.number (ahead lines.old.input.now lines.old.place) (B.view book.old) (B.view book.new) (string_bytes out.old) (string_bytes out.new)) }
{
    let mut session = Session { book, out };
    session.serve(lines)
}

/// Opens a book under the measure and serves the further lines, or answers why the book refuses the opening.
fn serve_under<M: Measure + Display>(
    opening: Opening,
    lines: &mut Lines,
    out: &mut String,
) -> Result<Result<(), Refusal>, AllocError>
    ensures { IfOk result (λ tried. MatchResult tried (λ _. (opening_refusal opening.sheets ≡ None) × ServedBook M.Measure.meaning M.Display.output lines.old.number (ahead lines.old.input.now lines.old.place) opening.sheets (string_bytes out.old ++ opening_line opening.kind opening.sheets) (string_bytes out.new)) (λ e. (opening_refusal opening.sheets ≡ Some e) × (lines.new ≡ lines.old) × (out.new ≡ out.old))) }
{
    let mut memory: Memory<M> = Memory::new(*out.allocator(), opening.sheets)?;
    let sheets = match memory.check(opening.sheets) {
        Ok(sheets) => sheets,
        Err(refusal) => return Ok(Err(refusal)),
    };
    let checked = Checked {
        register: memory.register.as_mut_slice(),
        table: memory.table.as_mut_slice(),
        spare: memory.spare.as_mut_slice(),
        work: memory.work.as_mut_slice(),
        marks: memory.marks.as_mut_slice(),
        sheets,
    };
    let mut book: KeptBook<M> = KeptBook::make(checked);
    answers::opening(out, opening.kind, opening.sheets)?;
    serve(&mut book, lines, out)?;
    Ok(Ok(()))
}

/// Opens a book of the kind that the line asks for and serves the further lines, or answers why the book refuses the opening.
fn open(
    opening: Opening,
    lines: &mut Lines,
    out: &mut String,
) -> Result<Result<(), Refusal>, AllocError>
    ensures { IfOk result (λ tried. MatchResult tried (λ _. Opened opening lines.old.number (ahead lines.old.input.now lines.old.place) true (string_bytes out.old) (string_bytes out.new)) (λ e. (opening_refusal opening.sheets ≡ Some e) × (lines.new ≡ lines.old) × (out.new ≡ out.old))) }
{
    match opening.kind {
        Kind::Minutes => serve_under::<Minutes>(opening, lines, out),
        Kind::Chain => serve_under::<Chain>(opening, lines, out),
        Kind::Weakest => serve_under::<Weakest>(opening, lines, out),
    }
}

/// What is printed for an order sheet.
pub fn run(heap: Global, input: &[u8]) -> Result<String, AllocError>
    ensures { IfOk result (λ text. WholeSession 0 (ahead input.now 0) [] (string_bytes text)) }
{
    let mut out = String::new(heap);
    let mut lines = Lines::new(input);
    while let Some(opening) = await_opening(&mut lines, &mut out)? {
        match open(opening, &mut lines, &mut out)? {
            Ok(()) => return Ok(out),
            Err(refusal) => answers::refused(&mut out, opening.number, refusal.into())?,
        }
    }
    Ok(out)
}
