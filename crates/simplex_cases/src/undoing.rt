//! Restrictions as the owner of an undo stack keeps them.

use esc_simplex::{Simplex, SimplexRec};
use esc_trail::{Carries, Undoable};

/// A record of the undo stack.
#[derive(Clone, Copy)]
pub struct Rec {
    simplex: SimplexRec,
}

impl Carries<SimplexRec> for Rec {
    ghost use Rattle.simplex_cases.specs.Undoing.{record_of};

    ghost carried = { record_of };

    fn carry(rec: SimplexRec) -> Rec {
        Rec { simplex: rec }
    }
}

/// Restrictions, which take such records back.
#[derive(Drop)]
pub struct Restrictions {
    pub simplex: Simplex,
}

impl Undoable for Restrictions {
    type Rec = Rec;

    ghost use Rattle.simplex_cases.specs.Undoing.{lawful, restrictions_undo};

    ghost undo = { restrictions_undo };

    ghost lawful = { lawful };

    fn back(&mut self, rec: Rec) {
        self.simplex.back(rec.simplex);
    }
}
