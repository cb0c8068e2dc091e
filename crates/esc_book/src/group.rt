//! The nodes of distinctions.

ghost use Rattle.std.specs.Prelude.{◌≡◌, ◌+◌, IfOk, slice_get};
ghost use Rattle.esc_book.specs.GroupInside.{node_pairs};

use esc_egraph::Node;
use sqlite_items::Items;
use std::alloc::{AllocError, Global};
use std::marker::Model;

pub type Nodes = Items<Node>;

/// The nodes of the terms of a distinction, in order, and the number of the first pair of each with
/// a later one.
#[derive(Drop)]
pub struct Group {
    nodes: Nodes,
    rows: Vec<u64>,
}

impl Model for Group {
    ghost use Rattle.std.specs.Prelude.{ℕ, List};
    ghost use Rattle.esc_book.specs.GroupInside.{HasRows};

    ghost Value = { List ℕ };

    ghost view = { λ group. group.nodes };

    ghost invariant = { HasRows };
}

impl Group {
    /// It fails only where memory is wanting, or where the pairs cannot be numbered.
    pub(crate) fn new(alloc: Global, nodes: Nodes) -> Result<Group, AllocError>
        ensures { IfOk result (λ group. group ≡ nodes) }
    {
        let mut rows = Vec::new(alloc);
        let mut start = 0;
        let mut left = nodes.len();
        'rows: while left > 0 {
            rows.push(start)?;
            left -= 1;
            start = further(start, left as u64)?;
        }
        Ok(Group { nodes, rows })
    }

    pub fn nodes(&self) -> &[Node]
        ensures { result.now ≡ self.now }
    {
        self.nodes.as_slice()
    }

    /// The pair with a number.
    pub(crate) fn pair(&self, number: u64) -> Option<(Node, Node)>
        ensures { result ≡ slice_get (node_pairs self.now) number }
    {
        let row = self.rows.partition_point(|start| *start <= number);
        if row == 0 {
            return None;
        }
        let nodes = self.nodes.as_slice();
        let first = nodes[row - 1];
        let others = &nodes[row..];
        match others.get((number - self.rows[row - 1]) as usize) {
            Some(other) => Some((first, *other)),
            None => None,
        }
    }
}

/// The sum, or want of memory where it is too large a number.
pub(crate) fn further(start: u64, count: u64) -> Result<u64, AllocError>
    ensures { IfOk result (λ end. end ≡ start + count) }
{
    match start.checked_add(count) {
        Some(end) => Ok(end),
        None => Err(AllocError),
    }
}
