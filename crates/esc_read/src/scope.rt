//! The variables in scope.

ghost use Rattle.std.specs.Prelude.{◌≡◌, ◌≤◌, ◌-◌, [], ◌∷◌, take, drop, length, OnOk, OnErr};
ghost use Rattle.std.specs.List.{list_any, position};
ghost use Rattle.std.specs.Str.{bytes_eq};

use std::alloc::{AllocError, Global};
use std::marker::Model;

/// The spellings of variables, as they stand in the expression. Clauses see the innermost first.
#[derive(Drop)]
pub(crate) struct Scope<'e> {
    /// The outermost first.
    variables: Vec<&'e [u8]>,
}

impl<'e> Model for Scope<'e> {
    ghost use Rattle.std.specs.Prelude.{ℕ, List, map, reverse};

    ghost Value = { List (List ℕ) };

    ghost view = { λ scope. reverse (map (λ name. name.now) scope.variables.items) };
}

impl<'e> Scope<'e> {
    pub(crate) fn new(alloc: Global) -> Scope<'e>
        ensures { result ≡ [] }
    {
        Scope {
            variables: Vec::new(alloc),
        }
    }

    /// How many variables there are.
    pub(crate) fn len(&self) -> usize
        ensures { result ≡ length self.now }
    {
        self.variables.len()
    }

    /// Adds an innermost variable.
    pub(crate) fn push(&mut self, name: &'e [u8]) -> Result<(), AllocError>
        ensures ok { OnOk result (self.new ≡ name.now ∷ self.old) }
        ensures err { OnErr result (self.new ≡ self.old) }
    {
        self.variables.push(name)?;
        Ok(())
    }

    /// Leaves so many innermost variables.
    pub(crate) fn leave(&mut self, count: usize)
        requires { count ≤ length self.old }
        ensures { self.new ≡ drop count self.old }
    {
        let outer = self.variables.len() - count;
        self.variables.truncate(outer);
    }

    /// How many variables stand inside the innermost of this name.
    pub(crate) fn find(&self, name: &[u8]) -> Option<u64>
        ensures { result ≡ position (bytes_eq name.now) self.now }
    {
        let count = self.variables.len();
        'inside: for inside in 0..count {
            let variable: &[u8] = self.variables[count - 1 - inside];
            if name == variable {
                return Some(inside as u64);
            }
        }
        None
    }

    /// Whether one of so many innermost variables has this name.
    pub(crate) fn is_among(&self, name: &[u8], count: usize) -> bool
        ensures { result ≡ list_any (bytes_eq name.now) (take count self.now) }
    {
        match self.find(name) {
            Some(inside) => inside < count as u64,
            None => false,
        }
    }
}
