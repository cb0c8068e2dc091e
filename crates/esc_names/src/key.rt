//! What the reserved words say.

/// What a reserved word says.
#[derive(Clone, Copy)]
pub enum Key {
    True,
    False,
    And,
    Or,
    Not,
    Join(Join),
    Bind(Binder),
    Relate(Relation),
    Distinct,
    Calculate(Operator),
    Label(Labelling),
    Note(Note),
    /// A pattern of several terms.
    MultiPattern,
    Command(Order),
    /// Kept for later.
    Unused,
}

/// How two formulas are joined.
#[derive(Clone, Copy)]
pub enum Join {
    Implies,
    Explies,
    Iff,
}

#[derive(Clone, Copy)]
pub enum Binder {
    Forall,
    Exists,
}

/// How two terms are compared.
#[derive(Clone, Copy)]
pub enum Relation {
    Eq,
    Neq,
    Less,
    AtMost,
    Greater,
    AtLeast,
}

#[derive(Clone, Copy)]
pub enum Operator {
    Add,
    Sub,
    Mul,
}

/// Where a label counts: where its formula holds, where it fails, or in both cases.
#[derive(Clone, Copy)]
pub enum Labelling {
    Positive,
    Negative,
    Both,
}

/// What stands between the variables of a quantifier and its formula.
#[derive(Clone, Copy)]
pub enum Note {
    Patterns,
    Exempt,
    /// A name of the quantifier, which says nothing.
    Id,
}

/// What a command does that is no goal.
#[derive(Clone, Copy)]
pub enum Order {
    Push,
    Pop,
    Define,
    Prompt,
}
