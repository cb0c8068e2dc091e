//! Counterexamples.

ghost use Rattle.std.specs.Prelude.{IfOk};
ghost use Rattle.esc_context.specs.Left.{IsLeft, Tells};

use crate::classes::classes_of;
use crate::labelling::labels;
use esc_fact::{Base, Facts};
use esc_outcome::{Counterexample, Literals};
use esc_sharing::{Sharing, admitted_laws, unquantified_laws};
use esc_simplex::Simplex;
use esc_term::Copied;
use std::alloc::{AllocError, Global};

/// The counterexample that a branch shows which was left open. It fails only where memory is
/// wanting.
pub fn counterexample(
    alloc: Global,
    sharing: &Sharing<Simplex>,
    base: &Base,
    live: &Facts,
    literals: &Literals,
) -> Result<Counterexample, AllocError>
    requires left { IsLeft base.now sharing.now live.now literals.now }
    ensures { IfOk result (Tells base.now sharing.now live.now literals.now) }
{
    admitted_laws::<Simplex>();
    unquantified_laws();
    let classes = classes_of(alloc, sharing)?;
    let labels = labels(alloc, sharing, base, live, literals)?;
    Ok(Counterexample {
        facts: live.copied(alloc)?,
        literals: literals.copied(alloc)?,
        classes,
        labels,
    })
}
