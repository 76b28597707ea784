// Root: the builder's turn that adds the entries of the next root.
ghost use Rattle.std.specs.Prelude.{◌≡◌, Some, Err, MatchResult};
ghost use Rattle.theory.specs.Books.{View, Sound, root as root_call, built, taken_answer, taken_view, built_answer, root_refusal, progress, NothingFits};
ghost use Rattle.book.specs.Views.{view, Kept, Called, SameSlices};
ghost use Rattle.book.specs.Rooting.{NextRoot, PutIn, LeftOut};

use crate::book::Book;
use crate::phase::{Taken, advance};
use measures::Measure;
use roots::grow;
use theory::{Built, Phase, Progress, Refusal};

/// What a builder says of the book after its turn.
// No `From`: the type is of another crate, which holds no functions.
fn progress_of(done: bool) -> Progress
    ensures { result ≡ progress done }
{
    if done {
        Progress::Finished
    } else {
        Progress::Open
    }
}

impl<'r, 't, 's, 'w, 'm, M: Measure> Book<'r, 't, 's, 'w, 'm, M> {
    /// The next root, if the book is not finished and rounds are not under way.
    fn next_root(&self) -> Result<u16, Refusal>
        ensures { MatchResult result (λ root. Kept M.Measure.meaning self.now → NextRoot M.Measure.meaning (view self.now) root) (λ e. root_refusal M.Measure.meaning (view self.now) self.now.phase ≡ Some e) }
    {
        match self.phase {
            Phase::Open => Ok(0),
            Phase::Roots(done) => Ok(u16::try_from(done).unwrap_or(u16::MAX)),
            Phase::Rounds(_) => Err(Refusal::OtherBuilder),
            Phase::Finished => Err(Refusal::AlreadyFinished),
        }
    }

    /// Puts the entries of the root into the table; refuses if they do not find places.
    fn put_in(&mut self, root: u16) -> Result<(), Refusal>
        ensures answer { MatchResult result (λ _. Kept M.Measure.meaning self.old → NextRoot M.Measure.meaning (view self.old) root → PutIn M.Measure.meaning (view self.old) root self.new) (λ e. (e ≡ Refusal.WantOfPlaces) × (Kept M.Measure.meaning self.old → NextRoot M.Measure.meaning (view self.old) root → LeftOut M.Measure.meaning (view self.old) root self.new)) }
        ensures slices { SameSlices self.old self.new }
    {
        let sheets = self.sheets;
        let register = &self.register;
        let spare = &mut self.spare;
        let work = &mut self.work;
        let marks = &mut self.marks;
        grow(
            register.items(),
            &mut self.table,
            spare.cells,
            work.cells,
            marks.cells,
            root,
            sheets,
        )
        .map_err(|_| Refusal::WantOfPlaces)
    }

    /// Moves the phase on after the root, and answers how many roots are done and whether the book is finished.
    fn conclude(&mut self, root: u16) -> Built
        ensures concluded { (v : View M) → Sound M.Measure.meaning v → NextRoot M.Measure.meaning v root → PutIn M.Measure.meaning v root self.old → (built result.number result.progress ≡ taken_answer M.Measure.meaning v root_call) × (view self.new ≡ taken_view M.Measure.meaning v root_call) × Kept M.Measure.meaning self.new }
        ensures slices { SameSlices self.old self.new }
    {
        let number = u32::from(root) + 1;
        let progress = progress_of(number == u32::from(self.sheets));
        advance(&mut self.phase, Taken::Root(progress));
        Built { number, progress }
    }

    /// Builds the next root, from sheet 0 on: afterwards the table is every finished entry whose senior sheet is the root or lower.
    /// Answers how many roots are done and whether the book is finished.
    pub fn root(&mut self) -> Result<Built, Refusal>
        ensures called { Called M.Measure.meaning self.old root_call (built_answer result) self.new }
        ensures wanting { result ≡ Err Refusal.WantOfPlaces → Kept M.Measure.meaning self.old → NothingFits M.Measure.meaning (view self.old) }
        ensures slices { SameSlices self.old self.new }
    {
        let root = self.next_root()?;
        self.put_in(root)?;
        Ok(self.conclude(root))
    }
}
