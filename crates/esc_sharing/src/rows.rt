//! The rows of the arithmetic are copied, and put again.

ghost use Rattle.std.specs.Prelude.{◌≡◌, take, IfOk};
ghost use Rattle.esc_tableau.specs.Listed.{tabled};
ghost use Rattle.esc_tableau.specs.Table.{size};
ghost use Rattle.esc_simplex.specs.Calls.{AreRowsFor};
ghost use Rattle.esc_simplex.specs.SimplexUndo.{AreSame};
ghost use Rattle.esc_simplex.specs.View.{IsSimplex};

use crate::sharing::Sharing;
use esc_simplex::Simplex;
use esc_tableau::Rows;
use std::alloc::AllocError;

impl Sharing<Simplex> {
    /// A copy of the rows of the arithmetic, which can be put again. It fails only where memory is
    /// wanting.
    pub fn copy_rows(&self) -> Result<Rows, AllocError>
        requires simplex { IsSimplex self.now.theory }
        ensures rows { IfOk result (λ rows. tabled rows ≡ self.now.theory.tableau) }
        ensures fit { IfOk result (AreRowsFor self.now.theory) }
    {
        self.theory.copy_rows()
    }

    /// Puts rows that were copied in place of those of the arithmetic.
    pub fn put_rows(&mut self, rows: Rows)
        requires simplex { IsSimplex self.old.theory }
        requires rows { AreRowsFor self.old.theory rows }
        ensures rest { self.new ≡ record self.old { theory = self.new.theory } }
        ensures rows { self.new.theory ≡ record self.old.theory {
          tableau = tabled rows;
          made = take (size (tabled rows)) self.old.theory.made;
        } }
        ensures simplex { IsSimplex self.new.theory }
        ensures same { AreSame self.new.theory self.old.theory }
    {
        self.theory.put_rows(rows);
    }
}
