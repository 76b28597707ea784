// Generating: the table of the next round, a row for each junior sheet.
ghost use Rattle.std.specs.Prelude.{◌≡◌, ℕ, ◌++◌, length, replicate, is_ok};
ghost use Rattle.theory.specs.Measures.{Lawful};
ghost use Rattle.theory.specs.Tables.{entries_at, outs, ins};
ghost use Rattle.strips.specs.Strips.{Lengthened};
ghost use Rattle.generation.specs.Laying.{next_generated, Layable, Laid};
ghost use Rattle.generation.specs.Putting.{Put};
ghost use Rattle.generation.specs.Rows.{Rowable};

use crate::rows::blank;
use crate::source::Source;
use crate::ways::Row;
use measures::Measure;
use strips::{Full, Strip};
use theory::{Entry, Way};

/// Lays both rows of a junior sheet, the out row before the in row, after the entries of the spare strip; refused if they do not fit.
fn lay_rows<M: Measure>(
    source: Source<M>,
    junior: u16,
    spare: &mut Strip<Entry<M>>,
    work: &mut [M],
) -> Result<(), Full>
    ensures kept { Lengthened spare.old spare.new }
    ensures work { work.new ≡ replicate (length work.old) M.Measure.meaning.none }
    ensures laid { Lawful M.Measure.meaning → (n : ℕ) → Rowable M.Measure.meaning n source.entry junior work.old → Put spare.old (entries_at M.Measure.meaning (next_generated M.Measure.meaning n source.entry) (outs junior junior ++ ins junior junior)) (is_ok result) spare.new }
{
    let outs = Row {
        way: Way::Out,
        junior,
    };
    let ins = Row {
        way: Way::In,
        junior,
    };
    outs.lay(source, spare, work)?;
    ins.lay(source, spare, work)
}

/// Lays the table that the next round generates in the spare strip, which is lent empty and blank; refused if its entries exceed the places.
/// A round takes the best redraw values, or the best of the present entries and their joins through a sheet junior to at least one end.
/// The work strip is lent blank and is blank again, on every way out.
pub fn generate<M: Measure>(
    source: Source<M>,
    sheets: u16,
    spare: &mut Strip<Entry<M>>,
    work: &mut [M],
) -> Result<(), Full>
    ensures kept { Lengthened spare.old spare.new }
    ensures work { work.new ≡ replicate (length work.old) M.Measure.meaning.none }
    ensures laid { Lawful M.Measure.meaning → Layable M.Measure.meaning sheets source.entry spare.old work.old → Laid M.Measure.meaning sheets (next_generated M.Measure.meaning sheets source.entry) (length spare.old.cells.now) (is_ok result) spare.new }
{
    blank(work);
    for junior in 0..sheets {
        lay_rows(source, junior, spare, work)?;
    }
    Ok(())
}
