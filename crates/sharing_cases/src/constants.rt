//! A theory without unknowns: its terms are those that come to a number.

ghost use Rattle.std.specs.Prelude.{◌≡◌, ◌↔◌, ◌∷◌, ◌++◌, [], pos, ◌≤ℤ◌, ◌+ℤ◌, ◌<◌};
ghost use Rattle.std.specs.Prelude.{IfErr, IfOk, IsTrue, MatchOption, OnErr, OnOk};
ghost use Rattle.std.specs.Prelude.{if◌then◌else◌};
ghost use Rattle.std.specs.List.{All};
ghost use Rattle.esc_trail.specs.Undo.{Notes};
ghost use Rattle.esc_egraph.specs.Graph.{Graph};
ghost use Rattle.esc_sharing.specs.Nodes.{node_count, node_term};
ghost use Rattle.esc_sharing.specs.Numbers.{AreNumbersOf, IsNumber};
ghost use Rattle.esc_sharing.specs.Stops.{UnlessMemory};
ghost use Rattle.sharing_cases.specs.ConstantTerms.{AreFoundMissed, AreMissed, AreThere, AreWorth};
ghost use Rattle.sharing_cases.specs.ConstantTerms.{IsFound, IsMissedWith, IsNoConstant, IsNoNode};
ghost use Rattle.sharing_cases.specs.ConstantTerms.{IsRefused, IsWorth, NoneIsMissed};
ghost use Rattle.sharing_cases.specs.ConstantTerms.{constants_undo, numbers_in};

use esc_egraph::{EGraph, Node, State};
use esc_frac::Frac;
use esc_linear::{FormJam, form_of};
use esc_sharing::{Lit, Theory};
use esc_simplex::Stop;
use esc_term::Term;
use esc_trail::{Carries, Trail, Undoable};
use sqlite_items::Items;
use std::alloc::{AllocError, Global};

/// An arithmetic node, its term, and what the term comes to.
#[derive(Drop)]
pub struct Constant {
    node: Node,
    term: Term,
    value: Frac,
}

/// What takes a change of the constants back.
#[derive(Clone, Copy)]
pub enum ConstantRec {
    /// The newest node became arithmetic.
    Added,
}

/// The arithmetic nodes, each with its number. It admits every assignment, and decides each order
/// by the numbers. A term that comes to no number is refused.
#[derive(Drop)]
pub struct Constants {
    list: Items<Constant>,
    alloc: Global,
}

impl Undoable for Constants {
    type Rec = ConstantRec;

    ghost use Rattle.esc_trail.proofs.Lawful.{equal_is_lawful};
    ghost use Rattle.sharing_cases.specs.ConstantTerms.{CanTake, constants_back, constants_undo};

    ghost undo = { constants_undo };

    ghost lawful = { equal_is_lawful constants_back CanTake };

    fn back(&mut self, rec: ConstantRec) {
        match rec {
            ConstantRec::Added => {
                let _ = self.list.pop();
            }
        }
    }
}

impl Theory for Constants {
    ghost use Rattle.std.specs.Prelude.{[], refl};
    ghost use Rattle.sharing_cases.specs.ConstantTerms.{AreWorth, IsRefused, numbers_in};
    ghost use Rattle.sharing_cases.specs.ConstantLaws.{back_worth, numbers_alike, refused_by_more};

    ghost sound = { AreWorth };

    ghost admits = { λ v x. Unit {0} };

    ghost numbers = { numbers_in };

    ghost made = { λ v. [] };

    ghost barred = { λ v terms numbers stop. IsRefused terms stop };

    fn number_count(&self) -> usize {
        self.list.len()
    }

    fn number_at(&self, place: usize) -> Node {
        self.list.as_slice()[place].node
    }

    fn has_node(&self, a: Node) -> bool {
        value_of(self.list.as_slice(), a).is_some()
    }

    fn add_node<R: Carries<ConstantRec>>(
        &mut self,
        graph: &EGraph,
        a: Node,
        trail: &mut Trail<R>,
    ) -> Result<(), Stop> {
        if value_of(self.list.as_slice(), a).is_some() {
            return Ok(());
        }
        let Ok(term) = graph.term(a) else {
            return Err(Stop::Memory);
        };
        let value = value_or_stop(self.alloc, &term)?;
        match self.push(
            Constant {
                node: a,
                term,
                value,
            },
            trail,
        ) {
            Ok(()) => Ok(()),
            Err(AllocError) => Err(Stop::Memory),
        }
    }

    fn assert<R: Carries<ConstantRec>>(
        &mut self,
        _graph: &EGraph,
        lit: Lit,
        _trail: &mut Trail<R>,
    ) -> Result<State, Stop> {
        match lit {
            Lit::Equal(_, _) => Ok(State::Open),
            Lit::Apart(_, _) => Ok(State::Open),
            Lit::Below(a, b) => Ok(gap_state(self.value(b), self.value(a), true)),
            Lit::AtMost(a, b) => Ok(gap_state(self.value(b), self.value(a), false)),
        }
    }

    fn told_equal<R: Carries<ConstantRec>>(
        &mut self,
        _graph: &EGraph,
        a: Node,
        b: Node,
        _trail: &mut Trail<R>,
    ) -> Result<State, Stop> {
        if is_one_number(self.value(a), self.value(b)) {
            return Ok(State::Open);
        }
        Ok(State::Closed)
    }

    fn next_equal(&mut self, graph: &EGraph) -> Result<Option<(Node, Node)>, Stop> {
        Ok(missed(graph, self.list.as_slice()))
    }

    ghost same_admits = { λ v w same x h. h };

    ghost same_numbers = { numbers_alike };

    ghost back_made = { λ v rec can. refl };

    ghost back_sound = { back_worth };

    ghost barred_by_more = { refused_by_more };
}

impl Constants {
    /// No node is arithmetic.
    pub fn new(alloc: Global) -> Constants
        ensures worth { AreWorth result }
        ensures numbers { numbers_in result ≡ [] }
    {
        Constants {
            list: Items::new(alloc),
            alloc,
        }
    }

    /// The number of an arithmetic node.
    fn value(&self, a: Node) -> Frac
        requires worth { AreWorth self.now }
        requires number { IsNumber (numbers_in self.now) a }
        ensures { (g : Graph) → AreNumbersOf g (numbers_in self.now)
            → IsWorth (node_term g a) result.num }
    {
        match value_of(self.list.as_slice(), a) {
            Some(value) => value,
            None => unreachable!(),
        }
    }

    /// Adds a node.
    fn push<R: Carries<ConstantRec>>(
        &mut self,
        constant: Constant,
        trail: &mut Trail<R>,
    ) -> Result<(), AllocError>
        ensures ok { OnOk result
            (self.new ≡ record self.old { list = self.old.list ++ constant ∷ [] }) }
        ensures err { OnErr result (self.new ≡ self.old) }
        ensures undo { Notes constants_undo R.carried trail.old.records trail.new.records self.old
            self.new }
    {
        trail.reserve(1)?;
        self.list.push(constant)?;
        trail.note(R::carry(ConstantRec::Added));
        Ok(())
    }
}

/// The number of a node, where it is arithmetic.
fn value_of(constants: &[Constant], a: Node) -> Option<Frac>
    ensures { MatchOption result (IsNoNode constants.now a) (IsFound constants.now a) }
{
    'constants: for constant in constants {
        if constant.node == a {
            return Some(constant.value);
        }
    }
    None
}

/// Two nodes of one number that stand in two classes.
fn missed(graph: &EGraph, constants: &[Constant]) -> Option<(Node, Node)>
    requires there { AreThere graph.now constants.now }
    ensures { MatchOption result (All (NoneIsMissed graph.now constants.now) constants.now)
        (AreFoundMissed graph.now constants.now) }
{
    'constants: for constant in constants {
        match missed_with(graph, constants, constant) {
            Some(other) => return Some((constant.node, other)),
            None => (),
        }
    }
    None
}

/// One that has the number of this one, and stands in another class.
fn missed_with(graph: &EGraph, constants: &[Constant], first: &Constant) -> Option<Node>
    requires there { AreThere graph.now constants.now }
    requires first { first.now.node < node_count graph.now }
    ensures { MatchOption result (NoneIsMissed graph.now constants.now first.now)
        (IsMissedWith graph.now constants.now first.now) }
{
    'constants: for constant in constants {
        if are_missed(graph, first, constant) {
            return Some(constant.node);
        }
    }
    None
}

/// Whether two have one number and stand in two classes.
fn are_missed(graph: &EGraph, first: &Constant, second: &Constant) -> bool
    requires first { first.now.node < node_count graph.now }
    requires second { second.now.node < node_count graph.now }
    ensures { IsTrue result ↔ AreMissed graph.now first.now second.now }
{
    if !is_one_number(first.value, second.value) {
        return false;
    }
    let together = graph.same(first.node, second.node);
    !together
}

/// Whether two whole numbers are one.
fn is_one_number(first: Frac, second: Frac) -> bool
    ensures { IsTrue result ↔ (first.num ≡ second.num) }
{
    first.num() == second.num()
}

/// Open where the gap of two numbers, upper less lower, and less 1 where it is strict, is not
/// negative.
fn gap_state(upper: Frac, lower: Frac, strict: bool) -> State
    ensures { (result ≡ State.Open)
        ↔ (lower.num +ℤ (if strict then pos 1 else pos 0)) ≤ℤ upper.num }
{
    let above = upper.num();
    let below = lower.num();
    let holds = if strict {
        below < above
    } else {
        below <= above
    };
    if holds { State::Open } else { State::Closed }
}

/// What the term comes to.
fn value_or_stop(alloc: Global, term: &Term) -> Result<Frac, Stop>
    ensures value { IfOk result (λ value. IsWorth term.now value.num) }
    ensures stop { IfErr result (UnlessMemory (IsRefused (term.now ∷ []))) }
{
    match form_of(alloc, term) {
        Ok(form) => {
            if form.is_constant() {
                return Ok(form.constant);
            }
            Err(refused(alloc, term))
        }
        Err(FormJam::Spill) => Err(refused(alloc, term)),
        Err(FormJam::Memory) => Err(Stop::Memory),
    }
}

/// The stop at a term that is no constant.
fn refused(alloc: Global, term: &Term) -> Stop
    requires { IsNoConstant term.now }
    ensures { UnlessMemory (IsRefused (term.now ∷ [])) result }
{
    match term.copy(alloc) {
        Ok(copy) => Stop::Form(copy),
        Err(AllocError) => Stop::Memory,
    }
}
