// A row of the generated table is laid: relaxed in the work strip, then put after the entries of the spare strip, in order.
ghost use Rattle.std.specs.Prelude.{◌≡◌, ℕ, length, replicate, is_ok};
ghost use Rattle.theory.specs.Measures.{Lawful};
ghost use Rattle.theory.specs.Tables.{entries_at};
ghost use Rattle.strips.specs.Strips.{Lengthened};
ghost use Rattle.generation.specs.Laying.{next_generated};
ghost use Rattle.generation.specs.Putting.{Put};
ghost use Rattle.generation.specs.Rows.{row_at, row_below, row_pairs, Rowable};

use crate::source::Source;
use crate::ways::Row;
use measures::Measure;
use strips::{Full, Strip, at, wipe};
use tables::entry_between;
use theory::Entry;

/// Makes the work strip blank.
// A name for the one blanking that two functions make.
pub fn blank<M: Measure>(work: &mut [M])
    ensures { work.new ≡ replicate (length work.old) M.Measure.meaning.none }
{
    wipe(work, 0, M::none());
}

impl Row {
    /// Puts the entry between the junior sheet and a senior one after those of the spare strip, if that one was offered a value.
    fn add<M: Measure>(
        self,
        senior: u16,
        work: &[M],
        spare: &mut Strip<Entry<M>>,
    ) -> Result<(), Full>
        ensures kept { Lengthened spare.old spare.new }
        ensures put { Put spare.old (row_at M.Measure.meaning self.way self.junior work.now senior) (is_ok result) spare.new }
    {
        let value = at(work, senior as usize, M::none());
        if value.better(M::none()) {
            spare.push(entry_between(self.way, self.junior, senior, value))?;
        }
        Ok(())
    }

    /// Puts the entries of the row after those of the spare strip; refused if they do not fit.
    // Like `collect` of roots in its three lines alone: another sheet is asked for, by another test. It goes by sheets, of whose numbers entries are made.
    fn collect<M: Measure>(self, work: &[M], spare: &mut Strip<Entry<M>>) -> Result<(), Full>
        ensures kept { Lengthened spare.old spare.new }
        ensures put { Put spare.old (row_below M.Measure.meaning self.way self.junior work.now self.junior) (is_ok result) spare.new }
    {
        for senior in 0..self.junior {
            self.add(senior, work, spare)?;
        }
        Ok(())
    }

    /// Lays the row after the entries of the spare strip; refused if it does not fit.
    /// The work strip is lent blank and is blank again.
    pub fn lay<M: Measure>(
        self,
        source: Source<M>,
        spare: &mut Strip<Entry<M>>,
        work: &mut [M],
    ) -> Result<(), Full>
        ensures kept { Lengthened spare.old spare.new }
        ensures work { work.new ≡ replicate (length work.old) M.Measure.meaning.none }
        ensures laid { Lawful M.Measure.meaning → (n : ℕ) → Rowable M.Measure.meaning n source.entry self.junior work.old → Put spare.old (entries_at M.Measure.meaning (next_generated M.Measure.meaning n source.entry) (row_pairs self.way self.junior)) (is_ok result) spare.new }
    {
        self.relax(source, work);
        let laid = self.collect(work, spare);
        blank(work);
        laid
    }
}
