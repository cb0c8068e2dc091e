//! A plain model of a graph, whose classes are computed anew after each call.

use esc_egraph::Top;
use std::alloc::{AllocError, Global};

/// The arguments of a node.
#[derive(Clone, Copy, PartialEq, Eq)]
pub enum Args {
    None,
    One(usize),
    Two(usize, usize),
}

/// The nodes, the pairs that were made equal or forbidden, and a number for each node's class.
#[derive(Drop)]
pub struct Plain {
    nodes: Vec<(Top, Args)>,
    equal: Vec<(usize, usize)>,
    forbidden: Vec<(usize, usize)>,
    numbers: Vec<usize>,
}

/// How many nodes, equal pairs and forbidden pairs there are.
#[derive(Clone, Copy)]
pub struct Size {
    nodes: usize,
    equal: usize,
    forbidden: usize,
}

impl Plain {
    pub fn new(alloc: Global) -> Plain {
        Plain {
            nodes: Vec::new(alloc),
            equal: Vec::new(alloc),
            forbidden: Vec::new(alloc),
            numbers: Vec::new(alloc),
        }
    }

    pub fn size(&self) -> Size {
        Size {
            nodes: self.nodes.len(),
            equal: self.equal.len(),
            forbidden: self.forbidden.len(),
        }
    }

    /// Goes back to an earlier size.
    pub fn shrink(&mut self, size: Size) -> Result<(), AllocError> {
        self.nodes.truncate(size.nodes);
        self.equal.truncate(size.equal);
        self.forbidden.truncate(size.forbidden);
        self.close()
    }

    /// The node with this top and these arguments, which is added where it was not there.
    pub fn node(&mut self, top: Top, args: Args) -> Result<usize, AllocError> {
        'nodes: for (index, node) in self.nodes.iter().enumerate() {
            if node.0 == top && node.1 == args {
                return Ok(index);
            }
        }
        let index = self.nodes.len();
        self.nodes.push((top, args))?;
        self.close()?;
        Ok(index)
    }

    pub fn equate(&mut self, a: usize, b: usize) -> Result<(), AllocError> {
        self.equal.push((a, b))?;
        self.close()
    }

    pub fn forbid(&mut self, a: usize, b: usize) -> Result<(), AllocError> {
        self.forbidden.push((a, b))?;
        Ok(())
    }

    /// How many nodes there are.
    pub fn count(&self) -> usize {
        self.nodes.len()
    }

    /// Whether two nodes stand in one class.
    pub fn same(&self, a: usize, b: usize) -> bool {
        self.number(a) == self.number(b)
    }

    fn number(&self, a: usize) -> usize {
        self.numbers.get(a).copied().unwrap_or(0)
    }

    /// How many nodes the class of a node has.
    pub fn class_size(&self, a: usize) -> usize {
        let number = self.number(a);
        self.numbers.iter().filter(|n| **n == number).count()
    }

    /// How many classes there are.
    pub fn classes(&self) -> usize {
        self.numbers
            .iter()
            .enumerate()
            .filter(|(k, n)| k == *n)
            .count()
    }

    /// Whether a forbidden pair or two different numerals stand in one class.
    pub fn is_broken(&self) -> bool {
        'nodes: for a in 0..self.nodes.len() {
            if self.is_forced_apart(a, a) {
                return true;
            }
        }
        false
    }

    /// Whether a forbidden pair or two different numerals stand in the classes of two nodes.
    pub fn is_forced_apart(&self, a: usize, b: usize) -> bool {
        self.has_forbidden(a, b) || self.has_numerals(a, b)
    }

    fn has_forbidden(&self, a: usize, b: usize) -> bool {
        'pairs: for (x, y) in &self.forbidden {
            if self.same(*x, a) && self.same(*y, b) || self.same(*x, b) && self.same(*y, a) {
                return true;
            }
        }
        false
    }

    fn has_numerals(&self, a: usize, b: usize) -> bool {
        'nodes: for (x, node) in self.nodes.iter().enumerate() {
            let is_numeral = matches!(node.0, Top::Num(_));
            if is_numeral && self.same(x, a) && self.differs_from_one(node.0, b) {
                return true;
            }
        }
        false
    }

    /// Whether the top is a numeral, and another one stands in the class of a node.
    fn differs_from_one(&self, top: Top, b: usize) -> bool {
        'nodes: for (y, node) in self.nodes.iter().enumerate() {
            if self.same(y, b) && are_unequal(top, node.0) {
                return true;
            }
        }
        false
    }

    /// Computes the classes from the equal pairs.
    fn close(&mut self) -> Result<(), AllocError> {
        self.numbers.clear();
        'nodes: for index in 0..self.nodes.len() {
            self.numbers.push(index)?;
        }
        self.join_equal();
        self.join_congruent();
        Ok(())
    }

    fn join_equal(&mut self) {
        'pairs: for place in 0..self.equal.len() {
            if let Some((a, b)) = self.equal.get(place).copied() {
                self.join(a, b);
            }
        }
    }

    /// Joins congruent nodes, until there are none in two classes. There are at most as many
    /// passes as nodes, since each pass but the last one joins two classes.
    fn join_congruent(&mut self) {
        'passes: for _ in 0..self.nodes.len() {
            if !self.pass() {
                return;
            }
        }
    }

    /// Joins the nodes that are congruent by the classes that there are, and tells whether there
    /// were any in two classes.
    fn pass(&mut self) -> bool {
        let mut has_joined = false;
        'nodes: for a in 0..self.nodes.len() {
            if self.join_with_earlier(a) {
                has_joined = true;
            }
        }
        has_joined
    }

    fn join_with_earlier(&mut self, a: usize) -> bool {
        let mut has_joined = false;
        'earlier: for b in 0..a {
            if !self.same(a, b) && self.are_alike(a, b) {
                self.join(a, b);
                has_joined = true;
            }
        }
        has_joined
    }

    fn are_alike(&self, a: usize, b: usize) -> bool {
        match (self.nodes.get(a), self.nodes.get(b)) {
            (Some(x), Some(y)) => x.0 == y.0 && self.are_same(x.1, y.1),
            _ => false,
        }
    }

    fn are_same(&self, xs: Args, ys: Args) -> bool {
        match (xs, ys) {
            (Args::None, Args::None) => true,
            (Args::One(x), Args::One(y)) => self.same(x, y),
            (Args::Two(x, x_2), Args::Two(y, y_2)) => self.same(x, y) && self.same(x_2, y_2),
            _ => false,
        }
    }

    /// Makes one class of the classes of two nodes.
    fn join(&mut self, a: usize, b: usize) {
        let from = self.number(a);
        let into = self.number(b);
        'numbers: for number in self.numbers.iter_mut() {
            if *number == from {
                *number = into;
            }
        }
    }
}

/// Whether the tops are numerals, and differ.
fn are_unequal(left: Top, right: Top) -> bool {
    match (left, right) {
        (Top::Num(x), Top::Num(y)) => x != y,
        _ => false,
    }
}
