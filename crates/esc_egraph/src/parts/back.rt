ghost use Rattle.std.specs.Prelude.{◌≡◌, ℕ, ◌-◌, ◌≤◌, ◌<◌, [], length, take, OnOk, IsTrue, All};
ghost use Rattle.esc_egraph.specs.ClosingInside.{IsEntered};
ghost use Rattle.esc_egraph.specs.GraphUndo.{graph_back, CanGoBack};
ghost use Rattle.esc_egraph.specs.PartsInside.{graph_in, IsMatch, IsSound, IsWhole};
ghost use Rattle.esc_egraph.specs.StepsInside.{IsTakenBack};
ghost use Rattle.esc_egraph.specs.declared.record.EgraphRec.TheVariants.{Made, Merged, Forbidden};
ghost use Rattle.esc_egraph.specs.declared.step.Step.{Step};
ghost use Rattle.esc_nodes.specs.Nodes.{shape_at, AreTerms};

use crate::key::signature_key;
use crate::parts::Parts;
use crate::step::Step;
use esc_index::Index;
use esc_nodes::Nodes;
use esc_union::{Node, Partition};
use std::alloc::AllocError;

impl Parts {
    /// Takes the last node away.
    pub(crate) fn back_made(&mut self)
        requires sound { IsSound self.old }
        requires can { CanGoBack (graph_in self.old) Made }
        ensures sound { IsSound self.new }
        ensures back { graph_in self.new ≡ graph_back (graph_in self.old) Made }
    {
        let last = Node::new(self.nodes.count() - 1);
        let args = self.nodes.args(last).len();
        self.uses.truncate(self.uses.len() - args);
        self.nodes.pop();
        self.classes.pop();
        let _ = self.numerals.pop();
        let (nodes, merges) = (self.nodes.count(), self.classes.merges().len());
        self.whole = take_back(nodes, merges, &mut self.table, &mut self.steps);
    }

    /// Takes the last merge back.
    pub(crate) fn back_merged(&mut self)
        requires sound { IsSound self.old }
        requires can { CanGoBack (graph_in self.old) Merged }
        ensures sound { IsSound self.new }
        ensures back { graph_in self.new ≡ graph_back (graph_in self.old) Merged }
    {
        self.classes.unmerge();
        let (nodes, merges) = (self.nodes.count(), self.classes.merges().len());
        self.sides.back_to(merges, self.forbidden.len());
        self.whole = take_back(nodes, merges, &mut self.table, &mut self.steps);
    }

    /// Takes the last forbidden pair away.
    pub(crate) fn back_forbidden(&mut self)
        requires sound { IsSound self.old }
        requires can { CanGoBack (graph_in self.old) Forbidden }
        ensures sound { IsSound self.new }
        ensures back { graph_in self.new ≡ graph_back (graph_in self.old) Forbidden }
    {
        let _ = self.forbidden.pop();
        let (merges, pairs) = (self.classes.merges().len(), self.forbidden.len());
        self.sides.back_to(merges, pairs);
    }

    /// Enters the sides of pairs and the nodes into their tables anew, where changes were taken
    /// back in another order.
    pub(crate) fn index(&mut self) -> Result<(), AllocError>
        requires { IsSound self.old }
        ensures sound { IsSound self.new }
        ensures graph { graph_in self.new ≡ graph_in self.old }
        ensures whole { OnOk result (IsTrue self.new.whole) }
    {
        self.sides.index(&self.classes, self.forbidden.as_slice())?;
        if self.whole {
            return Ok(());
        }
        self.steps.clear();
        enter_all(&self.nodes, &self.classes, &mut self.table)?;
        self.whole = true;
        Ok(())
    }
}

/// Takes what was entered since the last step out of the table. Tells whether each node has a
/// match there: where there was no such step, nothing is known of the table.
fn take_back(nodes: usize, merges: usize, table: &mut Index, steps: &mut Vec<Step>) -> bool
    requires { All (λ s. s.table ≤ length table.old) steps.old.items }
    ensures { IsTakenBack nodes merges table.old steps.old.items table.new steps.new.items result }
{
    if let Some(step) = steps.pop() {
        if step.nodes as usize == nodes && step.merges as usize == merges {
            table.truncate(step.table as usize);
            return step.whole;
        }
    }
    steps.clear();
    table.truncate(0);
    false
}

/// Makes a table with an entry for each node.
fn enter_all(nodes: &Nodes, classes: &Partition, table: &mut Index) -> Result<(), AllocError>
    requires as_many { classes.now.count ≡ length nodes.now }
    ensures low { All (λ e. e.1 < length nodes.now) table.new }
    ensures whole { OnOk result (IsWhole nodes.now classes.now.merges table.new) }
{
    table.truncate(0);
    'nodes: for index in 0..nodes.count() {
        let node = Node::new(index);
        let key = signature_key(classes, nodes.top(node), nodes.args(node));
        table.push(key, node)?;
    }
    Ok(())
}
