//! What a search knows of a number, and its sets of open numbers.

/// What a search knows of a number.
#[derive(Clone, Copy, PartialEq, Eq, Debug)]
pub enum Mark {
    /// It was not met.
    New,
    /// It stands at this place of the stack.
    Open(usize),
    /// It is of the class of this number.
    Done(usize),
}

/// A set of open numbers that call one another: those on the stack from a place on, up to the next set's.
#[derive(Clone, Copy, PartialEq, Eq, Debug)]
pub struct Entry {
    /// Where it begins on the stack.
    pub first: usize,
    /// Where the calls of its numbers begin in the list of calls to follow.
    pub todo: usize,
}

/// The state of a search.
#[derive(Drop)]
pub struct Search {
    /// For each number.
    pub marks: Vec<Mark>,
    /// The open numbers.
    pub stack: Vec<u32>,
    /// The sets of open numbers, each of which reaches the next one.
    pub entries: Vec<Entry>,
    /// The calls to follow.
    pub todo: Vec<u32>,
    /// For each class that is done, the number that was met first.
    pub done: Vec<u32>,
}
