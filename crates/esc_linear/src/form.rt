//! Linear forms.

ghost use Rattle.std.specs.Prelude.{◌≡◌, ◌↔◌, [], IsTrue, IfOk};
ghost use Rattle.esc_frac.specs.Rational.{ℚ};
ghost use Rattle.esc_linear.specs.declared.form.FormJam.TheVariants.{Spill, Memory};
ghost use Rattle.esc_linear.specs.Forms.{constant_form, opaque_form};

use esc_frac::{Frac, Spill};
use esc_term::{Copied, Term};
use sqlite_items::Items;
use std::alloc::{AllocError, Global};

/// A term that arithmetic does not look into, and its coefficient.
#[derive(Drop)]
pub struct Part {
    pub term: Term,
    pub factor: Frac,
}

pub type Parts = Items<Part>;

/// The sum of a constant and of multiples of terms that arithmetic does not look into.
#[derive(Drop)]
pub struct Form {
    pub parts: Parts,
    pub constant: Frac,
}

/// Why there is no form.
#[derive(Clone, Copy, Debug, PartialEq, Eq)]
pub enum FormJam {
    /// A step of the calculation is out of the range of fractions.
    Spill,
    /// There is no memory for the form.
    Memory,
}

impl From<AllocError> for FormJam {
    ghost from_gives = { λ _ e. e ≡ Memory };

    fn from(_error: AllocError) -> FormJam {
        FormJam::Memory
    }
}

impl From<Spill> for FormJam {
    ghost from_gives = { λ _ e. e ≡ Spill };

    fn from(_spill: Spill) -> FormJam {
        FormJam::Spill
    }
}

impl Copied for Part {
    fn copied(&self, alloc: Global) -> Result<Part, AllocError> {
        Ok(Part {
            term: self.term.copy(alloc)?,
            factor: self.factor,
        })
    }
}

impl Form {
    /// A copy, where there is memory for it.
    pub fn copy(&self, alloc: Global) -> Result<Form, AllocError>
        ensures { IfOk result (λ c. c ≡ self.now) }
    {
        Ok(Form {
            parts: self.parts.copied(alloc)?,
            constant: self.constant,
        })
    }

    /// Whether no term stands in it.
    pub fn is_constant(&self) -> bool
        ensures { IsTrue result ↔ (self.now.parts ≡ []) }
    {
        self.parts.is_empty()
    }

    // The form of a number.
    pub(crate) fn constant(alloc: Global, number: Frac) -> Form
        ensures { result ≡ constant_form number }
    {
        Form {
            parts: Items::new(alloc),
            constant: number,
        }
    }

    // The form of a term that arithmetic does not look into.
    pub(crate) fn opaque(alloc: Global, term: &Term) -> Result<Form, AllocError>
        ensures { IfOk result (λ f. f ≡ opaque_form term.now) }
    {
        let mut parts = Items::new(alloc);
        parts.push(Part {
            term: term.copy(alloc)?,
            factor: Frac::whole(1),
        })?;
        Ok(Form {
            parts,
            constant: Frac::whole(0),
        })
    }
}
