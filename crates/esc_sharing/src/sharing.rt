ghost use Rattle.std.specs.Prelude.{◌≡◌, [], ◌∷◌, IfOk};
ghost use Rattle.esc_term.specs.Term.{truth_term};
ghost use Rattle.esc_cover.specs.Assignment.{Assignment};
ghost use Rattle.esc_egraph.specs.Congruence.{IsMet};
ghost use Rattle.esc_egraph.specs.Graph.{IsGraph};
ghost use Rattle.esc_sharing.specs.Nodes.{terms_in};
ghost use Rattle.esc_sharing.specs.Shared.{IsShared, literals_in, seen};

use crate::literal::{Lits, NodePairs};
use crate::record::{PartRec, ShareRec};
use crate::theory::Theory;
use esc_distinct::Groups;
use esc_egraph::{EGraph, EgraphRec, Top};
use esc_term::{Head, Sym};
use esc_trail::{Trail, Undoable};
use sqlite_items::Items;
use std::alloc::{AllocError, Global};

/// A graph, groups of nodes that differ, and a theory, with the literals that were asserted and the
/// pairs that the theory was told.
#[derive(Drop)]
pub struct Sharing<T> {
    pub(crate) graph: EGraph,
    pub(crate) groups: Groups,
    pub(crate) asserted: Lits,
    pub(crate) told: NodePairs,
    pub(crate) theory: T,
    pub(crate) alloc: Global,
}

impl<T: Theory> Undoable for Sharing<T> {
    type Rec = PartRec<T::Rec>;

    ghost use Rattle.esc_sharing.specs.SharingUndo.{sharing_undo, sharing_lawful};

    ghost undo = { sharing_undo T.undo };

    ghost lawful = { sharing_lawful T.undo T.lawful };

    fn back(&mut self, rec: PartRec<T::Rec>) {
        match rec {
            PartRec::Nodes(rec) => self.graph.back(rec),
            PartRec::Groups(rec) => self.groups.back(rec),
            PartRec::Lists(ShareRec::Asserted) => {
                let _ = self.asserted.pop();
            }
            PartRec::Lists(ShareRec::Told) => {
                let _ = self.told.pop();
            }
            PartRec::Theory(rec) => self.theory.back(rec),
        }
    }
}

impl<T: Theory + Drop> Sharing<T> {
    /// The term that predicates equal is in play, and no other.
    pub fn new(alloc: Global, theory: T) -> Result<Sharing<T>, AllocError>
        requires sound { T.sound theory }
        requires numbers { T.numbers theory ≡ [] }
        requires admits { (x : Assignment) → T.admits theory x }
        ensures shared { IfOk result (λ s. IsShared (seen T.sound T.admits T.numbers s)) }
        ensures theory { IfOk result (λ s. s.theory ≡ theory) }
        ensures terms { IfOk result (λ s. terms_in s.graph ≡ truth_term ∷ []) }
        ensures literals { IfOk result
            (λ s. literals_in (seen T.sound T.admits T.numbers s) ≡ []) }
        ensures told { IfOk result (λ s. s.told ≡ []) }
    {
        let graph = truth_graph(alloc)?;
        Ok(Sharing {
            graph,
            groups: Groups::new(alloc),
            asserted: Items::new(alloc),
            told: Items::new(alloc),
            theory,
            alloc,
        })
    }
}

/// A graph with the node of the term that predicates equal.
fn truth_graph(alloc: Global) -> Result<EGraph, AllocError>
    ensures terms { IfOk result (λ g. terms_in g ≡ truth_term ∷ []) }
    ensures forbidden { IfOk result (λ g. g.forbidden ≡ []) }
    ensures met { IfOk result IsMet }
    ensures graph { IfOk result IsGraph }
{
    let mut trail: Trail<EgraphRec> = Trail::new(alloc);
    let mut graph = EGraph::new(alloc);
    graph.node(Top::App(Head::Name(Sym::TRUE)), &[], &mut trail)?;
    let _ = graph.count();
    Ok(graph)
}

impl<T: Theory> Sharing<T> {
    /// The graph, whose nodes are the terms in play.
    pub fn graph(&self) -> &EGraph
        ensures { result.now ≡ self.now.graph }
    {
        &self.graph
    }

    /// The groups of nodes that differ.
    pub fn groups(&self) -> &Groups
        ensures { result.now ≡ self.now.groups }
    {
        &self.groups
    }

    pub fn theory(&self) -> &T
        ensures { result.now ≡ self.now.theory }
    {
        &self.theory
    }

    /// The literals, in the order of assertion.
    pub fn asserted(&self) -> &Lits
        ensures { result.now ≡ self.now.asserted }
    {
        &self.asserted
    }

    /// The pairs that the theory was told, in order.
    pub fn told(&self) -> &NodePairs
        ensures { result.now ≡ self.now.told }
    {
        &self.told
    }
}
