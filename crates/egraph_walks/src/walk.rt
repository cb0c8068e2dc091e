//! A random walk over a graph, beside the plain model.

ghost use Rattle.std.specs.Prelude.{◌≡◌, ◌<◌, length, All, IfOk};
ghost use Rattle.esc_trail.specs.Undo.{Notes};
ghost use Rattle.esc_egraph.specs.GraphUndo.{graph_undo};
ghost use Rattle.esc_egraph.specs.Congruence.{IsMet};

use crate::compare::agree;
use crate::dice::Dice;
use crate::plain::{Args, Plain};
use esc_egraph::{EGraph, EgraphRec, Node, State, Top};
use esc_term::{Head, Sym};
use esc_trail::Trail;
use std::alloc::{AllocError, Global};

/// The most calls on one level of a walk, but for those of the levels in it.
const CALLS: usize = 30;

/// After one call of so many, by chance, a level of more calls begins.
const CALLS_BETWEEN_LEVELS: usize = 6;

/// The kinds of calls among which the dice choose: those below the next number make a node.
const KINDS: usize = 14;

/// The kind that forbids a pair. Those above it equate one.
const FORBIDDING: usize = 10;

/// How many names of functions and constants there are.
const NAMES: usize = 3;

/// How many numerals there are.
const NUMERALS: usize = 2;

/// What a call came to.
#[derive(Clone, Copy, PartialEq, Eq)]
enum Outcome {
    Open,
    Closed,
    /// Another node was given than by the plain model.
    Differs,
}

/// The graph with its trail, the plain model, and the dice that choose what is done to both.
#[derive(Drop)]
pub struct Walk {
    graph: EGraph,
    trail: Trail<EgraphRec>,
    plain: Plain,
    dice: Dice,
    calls: u64,
}

impl Walk {
    pub fn new(alloc: Global, seed: u64) -> Walk
        ensures { IsMet result.graph }
    {
        Walk {
            graph: EGraph::new(alloc),
            trail: Trail::new(alloc),
            plain: Plain::new(alloc),
            dice: Dice::new(seed),
            calls: 0,
        }
    }

    /// How many calls were made.
    pub fn calls(&self) -> u64 {
        self.calls
    }

    /// Does some calls, each followed by a comparison, and takes them back. Whether all agreed.
    #[cycle(level)]
    pub fn level(&mut self, depth: u32) -> Result<bool, AllocError>
        requires { IsMet self.old.graph }
        ensures graph { self.new.graph ≡ self.old.graph }
        ensures records { self.new.trail.records ≡ self.old.trail.records }
    {
        let mark = self.trail.mark();
        let size = self.plain.size();
        let outcome = self.onward(depth);
        self.trail.pop_to(mark, &mut self.graph);
        self.plain.shrink(size)?;
        Ok(outcome? != Outcome::Differs && agree(&self.graph, &self.plain)?)
    }

    /// Does some calls, until a class is broken.
    #[cycle(level)]
    fn onward(&mut self, depth: u32) -> Result<Outcome, AllocError>
        requires { IsMet self.old.graph }
        ensures { Notes graph_undo (λ rec. rec)
            self.old.trail.records self.new.trail.records self.old.graph self.new.graph }
    {
        'calls: for _ in 0..CALLS {
            let outcome = self.turn(depth)?;
            if outcome != Outcome::Open {
                return Ok(outcome);
            }
        }
        Ok(Outcome::Open)
    }

    /// Does a call, and now and then a level of more.
    #[cycle(level)]
    fn turn(&mut self, depth: u32) -> Result<Outcome, AllocError>
        requires { IsMet self.old.graph }
        ensures met { IfOk result (λ o. o ≡ Outcome.Open → IsMet self.new.graph) }
        ensures undo { Notes graph_undo (λ rec. rec)
            self.old.trail.records self.new.trail.records self.old.graph self.new.graph }
    {
        let outcome = self.compared_call()?;
        if outcome != Outcome::Open || depth == 0 || self.dice.below(CALLS_BETWEEN_LEVELS) > 0 {
            return Ok(outcome);
        }
        if self.level(depth - 1)? {
            Ok(outcome)
        } else {
            Ok(Outcome::Differs)
        }
    }

    /// Does a call, and compares.
    fn compared_call(&mut self) -> Result<Outcome, AllocError>
        requires { IsMet self.old.graph }
        ensures met { IfOk result (λ o. o ≡ Outcome.Open → IsMet self.new.graph) }
        ensures undo { Notes graph_undo (λ rec. rec)
            self.old.trail.records self.new.trail.records self.old.graph self.new.graph }
    {
        let outcome = self.call()?;
        if self.agrees_on(outcome)? {
            Ok(outcome)
        } else {
            Ok(Outcome::Differs)
        }
    }

    /// Whether the plain model comes to the same.
    fn agrees_on(&self, outcome: Outcome) -> Result<bool, AllocError> {
        let is_broken = self.plain.is_broken();
        match outcome {
            Outcome::Open => Ok(!is_broken && agree(&self.graph, &self.plain)?),
            Outcome::Closed => Ok(is_broken && agree(&self.graph, &self.plain)?),
            Outcome::Differs => Ok(false),
        }
    }

    /// A call that the dice choose.
    fn call(&mut self) -> Result<Outcome, AllocError>
        requires { IsMet self.old.graph }
        ensures met { IfOk result (λ o. o ≡ Outcome.Open → IsMet self.new.graph) }
        ensures undo { Notes graph_undo (λ rec. rec)
            self.old.trail.records self.new.trail.records self.old.graph self.new.graph }
    {
        self.calls = self.calls.saturating_add(1);
        let kind = self.dice.below(KINDS);
        if self.graph.count() == 0 {
            let top = self.any_top();
            return self.make(top, &[], Args::None);
        }
        let a = self.any();
        let b = self.any();
        if kind > FORBIDDING {
            return self.equate(a, b);
        }
        if kind == FORBIDDING {
            return self.forbid(a, b);
        }
        let top = self.any_top();
        match self.dice.below(KINDS) {
            0 | 1 => self.make(top, &[], Args::None),
            2..=6 => self.make(top, &[a], Args::One(a.index())),
            _ => self.make(top, &[a, b], Args::Two(a.index(), b.index())),
        }
    }

    /// Any of the nodes.
    fn any(&mut self) -> Node
        requires { 0 < length self.old.graph.nodes }
        ensures there { result < length self.old.graph.nodes }
        ensures graph { self.new.graph ≡ self.old.graph }
        ensures trail { self.new.trail ≡ self.old.trail }
    {
        Node::new(self.dice.below(self.graph.count()))
    }

    /// Any of the tops.
    fn any_top(&mut self) -> Top
        ensures graph { self.new.graph ≡ self.old.graph }
        ensures trail { self.new.trail ≡ self.old.trail }
    {
        let choice = self.dice.below(NAMES + NUMERALS);
        if choice < NAMES {
            Top::App(Head::Name(Sym(choice as u64)))
        } else {
            Top::Num(choice as i64)
        }
    }

    /// Makes a node. The arguments of a numeral are left out.
    fn make(&mut self, top: Top, args: &[Node], plain: Args) -> Result<Outcome, AllocError>
        requires there { All (λ a. a < length self.old.graph.nodes) args.now }
        requires met { IsMet self.old.graph }
        ensures met { IfOk result (λ o. o ≡ Outcome.Open → IsMet self.new.graph) }
        ensures undo { Notes graph_undo (λ rec. rec)
            self.old.trail.records self.new.trail.records self.old.graph self.new.graph }
    {
        let plain = match top {
            Top::Num(_) => Args::None,
            Top::App(_) => plain,
        };
        let expected = self.plain.node(top, plain)?;
        let node = self.graph.node(top, args, &mut self.trail)?;
        if node.index() != expected {
            return Ok(Outcome::Differs);
        }
        Ok(Outcome::Open)
    }

    fn equate(&mut self, a: Node, b: Node) -> Result<Outcome, AllocError>
        requires a_is_there { a < length self.old.graph.nodes }
        requires b_is_there { b < length self.old.graph.nodes }
        requires met { IsMet self.old.graph }
        ensures met { IfOk result (λ o. o ≡ Outcome.Open → IsMet self.new.graph) }
        ensures undo { Notes graph_undo (λ rec. rec)
            self.old.trail.records self.new.trail.records self.old.graph self.new.graph }
    {
        self.plain.equate(a.index(), b.index())?;
        let state = self.graph.equate(a, b, &mut self.trail)?;
        Ok(outcome_of(state))
    }

    fn forbid(&mut self, a: Node, b: Node) -> Result<Outcome, AllocError>
        requires a_is_there { a < length self.old.graph.nodes }
        requires b_is_there { b < length self.old.graph.nodes }
        requires met { IsMet self.old.graph }
        ensures met { IfOk result (λ o. o ≡ Outcome.Open → IsMet self.new.graph) }
        ensures undo { Notes graph_undo (λ rec. rec)
            self.old.trail.records self.new.trail.records self.old.graph self.new.graph }
    {
        self.plain.forbid(a.index(), b.index())?;
        let state = self.graph.forbid(a, b, &mut self.trail)?;
        Ok(outcome_of(state))
    }
}

fn outcome_of(state: State) -> Outcome
    ensures { result ≡ Outcome.Open → state ≡ State.Open }
{
    match state {
        State::Open => Outcome::Open,
        State::Closed => Outcome::Closed,
    }
}
