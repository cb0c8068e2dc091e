//! What the calls of a tableau answer.
use crate::Unknown;

/// How the maximising of an unknown ends.
#[derive(Clone, Copy, Debug, PartialEq, Eq)]
pub enum Peak {
    /// It is nowhere positive, and its sample is its greatest value.
    NotPositive,
    /// Its sample is positive, or it grows without bound along the column of `ray`.
    Positive { ray: Option<Unknown> },
}

/// A step of arithmetic whose numbers are out of range.
#[derive(Clone, Copy, Debug, PartialEq, Eq)]
pub enum Step {
    /// A step of making a row.
    Row,
    /// The ratio that bounds a move, of the row's constant and its entry at the column.
    Ratio { row: Unknown, column: Unknown },
    /// A step of the pivot at this row and this column.
    Pivot { row: Unknown, column: Unknown },
}

/// Why the maximising of an unknown was given up.
#[derive(Clone, Copy, Debug, PartialEq, Eq)]
pub enum Jam {
    /// The next step does not fit.
    Spill(Step),
    /// The pivots allowed are spent, and the rule has one more.
    Pivots,
}

/// Why a row was not added.
#[derive(Clone, Copy, Debug, PartialEq, Eq)]
pub enum RowStop {
    /// A step of making it does not fit.
    Spill,
    /// There is no memory for it.
    Memory,
}
