// Both searches of a root, each with its new entries put into the spare strip.
ghost use Rattle.std.specs.Prelude.{◌≡◌, ◌≤◌, length, replicate};
ghost use Rattle.theory.specs.Measures.{Lawful};
ghost use Rattle.strips.specs.Strips.{Lengthened, count_after};
ghost use Rattle.roots.specs.Turns.{Ready, Gathered, BothGathered, both_ends};

use crate::search::Search;
use measures::Measure;
use strips::{Full, Marks, Strip, put, wipe};
use theory::{Entry, Redraw, Way};

/// Searches from the root one way and puts its new entries into the spare strip; refuses if they do not fit.
/// The guard clears the marks on every way out, and the work strip is blank again.
fn gather<M: Measure>(
    search: &Search<M>,
    spare: &mut Strip<Entry<M>>,
    work: &mut [M],
    marks: &mut [u8],
) -> Result<(), Full>
    ensures strip { Lengthened spare.old spare.new }
    ensures work { work.new ≡ replicate (length work.old) M.Measure.meaning.none }
    ensures marks { marks.new ≡ replicate (length marks.old) 0 }
    ensures found { Lawful M.Measure.meaning → Ready M.Measure.meaning search.now.sheets search.now.register.now search.now.table.now search.now.root → work.old ≡ replicate search.now.sheets M.Measure.meaning.none → marks.old ≡ replicate search.now.sheets 0 → spare.old.count ≤ length spare.old.cells.now → Gathered M.Measure.meaning search.now.sheets search.now.register.now search.now.root search.now.way spare.old.cells.now spare.old.count (count_after result spare.new) spare.new.cells.now }
{
    let guard = Marks { cells: marks };
    put(work, search.root as usize, M::empty());
    search.run(work, guard.cells);
    let gathered = search.collect(work, guard.cells, spare);
    wipe(work, 0, M::none());
    gathered
}

/// Searches from the root both ways, first out from it; answers how many entries are in use after the first.
pub fn gather_both<M: Measure>(
    register: &[Redraw],
    table: &[Entry<M>],
    spare: &mut Strip<Entry<M>>,
    work: &mut [M],
    marks: &mut [u8],
    root: u16,
    sheets: u16,
) -> Result<usize, Full>
    ensures strip { Lengthened spare.old spare.new }
    ensures work { work.new ≡ replicate (length work.old) M.Measure.meaning.none }
    ensures marks { marks.new ≡ replicate (length marks.old) 0 }
    ensures found { Lawful M.Measure.meaning → Ready M.Measure.meaning sheets register.now table.now root → work.old ≡ replicate sheets M.Measure.meaning.none → marks.old ≡ replicate sheets 0 → spare.old.count ≡ 0 → BothGathered M.Measure.meaning sheets register.now root spare.old.cells.now (both_ends result spare.new.count) spare.new.cells.now }
{
    let outs = Search {
        way: Way::Out,
        register,
        table,
        root,
        sheets,
    };
    gather(&outs, spare, work, marks)?;
    let middle = spare.count;
    let ins = Search {
        way: Way::In,
        ..outs
    };
    gather(&ins, spare, work, marks)?;
    Ok(middle)
}
