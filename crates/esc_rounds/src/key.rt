//! What facts that are alike have in common.

ghost use Rattle.std.specs.Prelude.{◌≡◌, ◌∷◌, [], ◌++◌, ◌<◌, ◌↔◌, length, map, IfOk, OnOk, IsTrue};
ghost use Rattle.std.specs.Cmp.{partial_equiv_from_equiv};
ghost use Rattle.std.specs.List.{All};
ghost use Rattle.esc_egraph.specs.Graph.{IsGraph, number_of};
ghost use Rattle.esc_rounds.specs.Due.{classes_of, kind_of};
ghost use Rattle.esc_rounds.specs.KeyInside.{digest, hashed, hashed-alike, key_of, kind_digest};
ghost use Rattle.esc_rounds.specs.KeyInside.{same_key, same_key-equivalence};
ghost use Rattle.esc_rounds.specs.Standing.{AreThere};

use crate::draw::Draw;
use crate::kind::Kind;
use esc_egraph::{EGraph, Node};
use esc_maps::MapMatch;
use esc_match::NodeList;
use esc_term::mix;
use sqlite_items::Items;
use std::alloc::{AllocError, Global};
use std::hash::{Hash, Hasher};

/// The kind of a fact with the classes of its terms.
#[derive(Drop)]
pub(crate) struct Key {
    pub(crate) kind: Kind,
    pub(crate) classes: NodeList,
}

fn is_same_kind(left: Kind, right: Kind) -> bool
    ensures { IsTrue result ↔ (left ≡ right) }
{
    left == right
}

fn are_same(lefts: &[Node], rights: &[Node]) -> bool
    ensures { IsTrue result ↔ (lefts.now ≡ rights.now) }
{
    if lefts.len() != rights.len() {
        return false;
    }
    'places: for (place, left) in lefts.iter().enumerate() {
        if *left != rights[place] {
            return false;
        }
    }
    true
}

fn is_same(left: &Key, right: &Key) -> bool
    ensures { IsTrue result ↔ (left.now ≡ right.now) }
{
    if !is_same_kind(left.kind, right.kind) {
        return false;
    }
    are_same(left.classes.as_slice(), right.classes.as_slice())
}

impl PartialEq for Key {
    ghost eq = { same_key };

    ghost laws = { partial_equiv_from_equiv same_key-equivalence };

    fn eq(&self, other: &Key) -> bool
        ensures test { result ≡ same_key self.now other.now }
        ensures same { IsTrue result ↔ (self.now ≡ other.now) }
    {
        is_same(self, other)
    }
}

impl Eq for Key {
    ghost laws = { same_key-equivalence };
}

fn digest_kind(kind: Kind) -> u64
    ensures { result ≡ kind_digest kind }
{
    match kind {
        Kind::Witness(formula) => mix(1, formula),
        Kind::Write => 2,
        Kind::Read => 3,
        Kind::Instance(formula) => mix(4, formula),
    }
}

fn digest_key(key: &Key) -> u64
    ensures { result ≡ digest key.now }
{
    let mut done = digest_kind(key.kind);
    'classes: for class in key.classes.as_slice() {
        done = mix(done, class.index() as u64);
    }
    done
}

impl Hash for Key {
    ghost hash_input = { hashed };

    ghost respects_eq = { hashed-alike.fed };

    fn hash<H: Hasher>(&self, state: &mut H) {
        state.write_u64(digest_key(self));
    }
}

fn kind_of(draw: &Draw) -> Kind
    ensures { result ≡ kind_of draw.now }
{
    match draw {
        Draw::Witness(formula) => Kind::Witness(*formula),
        Draw::Map(MapMatch::Write(_)) => Kind::Write,
        Draw::Map(MapMatch::Read(_, _)) => Kind::Read,
        Draw::Instance(formula, _) => Kind::Instance(*formula),
    }
}

/// Adds the classes of the nodes.
fn add_classes(graph: &EGraph, nodes: &[Node], classes: &mut NodeList) -> Result<(), AllocError>
    requires { All (λ n. n < length graph.now.nodes) nodes.now }
    ensures { OnOk result (classes.new ≡ classes.old ++ map (number_of graph.now) nodes.now) }
{
    'nodes: for node in nodes {
        classes.push(graph.class_number(*node))?;
    }
    Ok(())
}

/// The classes of the terms of a fact.
fn classes_of(alloc: Global, graph: &EGraph, draw: &Draw) -> Result<NodeList, AllocError>
    requires graph { IsGraph graph.now }
    requires drawable { AreThere graph.now draw.now }
    ensures { IfOk result (λ classes. classes ≡ classes_of graph.now draw.now) }
{
    let mut classes = Items::new(alloc);
    match draw {
        Draw::Witness(_) => {}
        Draw::Map(MapMatch::Write(write)) => {
            add_classes(graph, graph.args(*write), &mut classes)?;
        }
        Draw::Map(MapMatch::Read(write, place)) => {
            add_classes(graph, graph.args(*write), &mut classes)?;
            classes.push(graph.class_number(*place))?;
        }
        Draw::Instance(_, nodes) => add_classes(graph, nodes.as_slice(), &mut classes)?,
    }
    Ok(classes)
}

/// What all facts that are alike have in common.
pub(crate) fn key_of(alloc: Global, graph: &EGraph, draw: &Draw) -> Result<Key, AllocError>
    requires graph { IsGraph graph.now }
    requires drawable { AreThere graph.now draw.now }
    ensures { IfOk result (λ key. key ≡ key_of graph.now draw.now) }
{
    let classes = classes_of(alloc, graph, draw)?;
    Ok(Key {
        kind: kind_of(draw),
        classes,
    })
}
