//! How far searches go, and what is printed of them.

/// How far a search goes.
#[derive(Clone, Copy)]
pub struct Limits {
    /// The greatest depth of a fact.
    pub depth: u64,
    /// Rounds with a new fact, for each branch.
    pub rounds: u64,
    /// Facts other than the background and the negated goal, for each goal.
    pub facts: u64,
    /// Splits, for each goal.
    pub splits: u64,
    /// Pivots, for each maximising.
    pub pivots: u64,
}

/// What is printed beside the answers.
#[derive(Clone, Copy)]
pub struct Show {
    /// The facts by which goals are valid.
    pub log: bool,
    /// The classes of counterexamples, with their values.
    pub model: bool,
}

/// What is asked for where the program is called.
#[derive(Clone, Copy)]
pub struct Options {
    pub limits: Limits,
    pub show: Show,
}
