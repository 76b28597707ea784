// The words of the subject: what a redraw, an entry, a phase and a refusal are.
// What they mean, and what is proved of them for every lawful measure, stands in specs/ and proofs/.
#![tactic(auto)]

/// A redraw (an edge of the graph): one sheet redrawn as another, with its minutes and its line grade.
#[derive(Debug, Clone, Copy, PartialEq, Eq, Default)]
pub struct Redraw {
    pub from: u16,
    pub to: u16,
    pub minutes: u16,
    pub grade: u8,
}

/// The numbers of a redraw as they come in, before the book checks them.
#[derive(Debug, Clone, Copy, PartialEq, Eq)]
pub struct RedrawNumbers {
    /// The sheet that is redrawn.
    pub from: u32,
    /// The sheet that it is redrawn as.
    pub to: u32,
    /// How many minutes that takes.
    pub minutes: u32,
    /// The line grade that it leaves.
    pub grade: u32,
}

/// An entry of a table (a hub label): the value of redrawing one sheet as another.
#[derive(Debug, Clone, Copy, PartialEq, Eq)]
pub struct Entry<V> {
    pub from: u16,
    pub to: u16,
    pub value: V,
}

/// Where a book stands: open, in rounds (so many accepted), by roots (so many done), or finished.
#[derive(Debug, Clone, Copy, PartialEq, Eq)]
pub enum Phase {
    Open,
    Rounds(u32),
    Roots(u32),
    Finished,
}

/// What a builder says of the book after its turn.
#[derive(Debug, Clone, Copy, PartialEq, Eq)]
pub enum Progress {
    Open,
    Finished,
}

/// A builder's answer: its number, and whether the book is finished.
#[derive(Debug, Clone, Copy, PartialEq, Eq)]
pub struct Built {
    pub number: u32,
    pub progress: Progress,
}

/// The way of a search from a root: out along the redraws, or in against them.
#[derive(Debug, Clone, Copy, PartialEq, Eq)]
pub enum Way {
    Out,
    In,
}

/// Why a call of the book is turned away. Each case has its number.
#[derive(Debug, Clone, Copy, PartialEq, Eq)]
pub enum Refusal {
    SheetCount = 1,
    RegisterPlaces = 2,
    TablePlaces = 3,
    SparePlaces = 4,
    WorkPlaces = 5,
    UnknownSheet = 6,
    SameSheet = 7,
    Minutes = 8,
    Grade = 9,
    RegisterFull = 10,
    OtherBuilder = 11,
    AlreadyFinished = 12,
    WantOfPlaces = 13,
    NotFinished = 14,
}
