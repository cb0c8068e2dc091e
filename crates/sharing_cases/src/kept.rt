//! The script at hand, over one of the theories.

ghost use Rattle.std.specs.Prelude.{IfOk};
ghost use Rattle.sharing_cases.specs.Undoable.{IsKept};

use crate::constants::{ConstantRec, Constants};
use crate::script::Script;
use crate::tasks;
use esc_simplex::{Simplex, SimplexRec};
use std::alloc::{AllocError, Global};

/// A script over the arithmetic, or one over constants.
#[derive(Drop)]
pub enum Kept {
    Rows(Script<Simplex, SimplexRec>),
    Constants(Script<Constants, ConstantRec>),
}

impl Kept {
    /// Nothing is asserted. A maximising may take so many pivots.
    pub fn rows(alloc: Global, pivots: u64) -> Result<Kept, AllocError>
        ensures { IfOk result IsKept }
    {
        Ok(Kept::Rows(Script::new(alloc, Simplex::new(alloc, pivots))?))
    }

    /// Nothing is asserted of constants.
    pub fn constants(alloc: Global) -> Result<Kept, AllocError>
        ensures { IfOk result IsKept }
    {
        Ok(Kept::Constants(Script::new(alloc, Constants::new(alloc))?))
    }

    /// The text of what a task comes to.
    pub fn answer(
        &mut self,
        alloc: Global,
        task: &str,
        operands: &[&str],
    ) -> Result<Option<String>, AllocError>
        requires { IsKept self.old }
        ensures { IsKept self.new }
    {
        match self {
            Kept::Rows(script) => tasks::answer(alloc, script, task, operands),
            Kept::Constants(script) => tasks::answer(alloc, script, task, operands),
        }
    }
}
