//! What a round begins with, from the live facts.

ghost use Rattle.std.specs.Prelude.{◌≡◌, ◌+◌, ◌<◌, Some, [], length, take, OnOk, IfOk, IsTrue};
ghost use Rattle.std.specs.List.{All, AllZip};
ghost use Rattle.esc_cover.specs.Classes.{active_terms};
ghost use Rattle.esc_nodes.specs.Terms.{terms_of};
ghost use Rattle.esc_egraph.specs.Congruence.{IsCongruence};
ghost use Rattle.esc_egraph.specs.Graph.{IsGraph, number_of};
ghost use Rattle.esc_fact.specs.Fact.{formula_of, formulas_of};
ghost use Rattle.esc_fact.specs.Legal.{HasAtom, IsClosedBase, IsLegal};
ghost use Rattle.esc_fact.specs.declared.base.Base.{Base as Grounds};
ghost use Rattle.esc_rounds.specs.Branch.{IsStanding, is_quantified};
ghost use Rattle.esc_rounds.specs.Standing.{IsReady, standing_of};
ghost use Rattle.esc_standing.specs.Standing.{live_in, standing_in};
ghost use Rattle.esc_standing.specs.SurveyInside.{AreLive, IsFound, facts_at};

use crate::draws::{depth_of, draw_of};
use crate::formulas::KeptFormulas;
use crate::laws::kept_laws;
use crate::literals::literals_of;
use crate::origins::keep_formulas;
use crate::terms::enter_terms;
use esc_egraph::EGraph;
use esc_fact::{Base, Fact};
use esc_rounds::{Branch, Draw, Draws, Literal};
use esc_term::{Formula, Item};
use sqlite_items::Items;
use std::alloc::{AllocError, Global};

/// What is found so far: the depths of nodes, the quantified formulas and the draws of the facts.
#[derive(Drop)]
pub(crate) struct Found {
    pub(crate) depths: Items<u64>,
    pub(crate) formulas: KeptFormulas,
    pub(crate) live: Draws,
}

/// What a round begins with: for each node how deep its term lies, the quantified formulas and
/// literals, and what the live facts are drawn from.
#[derive(Drop)]
pub struct Survey {
    pub(crate) depths: Items<u64>,
    pub(crate) formulas: KeptFormulas,
    pub(crate) literals: Items<Literal>,
    pub(crate) live: Draws,
}

impl Survey {
    /// How the branch of this graph stands.
    pub fn branch<'a>(&'a self, graph: &'a EGraph) -> Branch<'a>
        ensures { standing_of result ≡ standing_in graph.now self.now }
    {
        Branch {
            graph,
            depths: self.depths.as_slice(),
            formulas: self.formulas.kept.as_slice(),
            literals: self.literals.as_slice(),
        }
    }

    /// What the live facts besides those of the base are drawn from.
    pub fn live(&self) -> &[Draw]
        ensures { result.now ≡ live_in self.now }
    {
        self.live.as_slice()
    }
}

/// What is found in no facts, where no depth is set. It fails only where memory is wanting.
fn nothing_found(alloc: Global, graph: &EGraph, unset: u64) -> Result<Found, AllocError>
    ensures { (base : Grounds) → IfOk result (IsFound base graph.now [] unset) }
{
    Ok(Found {
        depths: Items::from_vec(vec![in alloc; unset; graph.count()]?),
        formulas: KeptFormulas {
            kept: Items::new(alloc),
            closed: Items::new(alloc),
        },
        live: Items::new(alloc),
    })
}

/// Adds what the fact at this place is drawn from, and what stands in it.
fn add_fact(
    alloc: Global,
    base: &Base,
    graph: &EGraph,
    log: &[Fact],
    formulas: &[Formula],
    live: &[usize],
    place: usize,
    found: &mut Found,
) -> Result<(), AllocError>
    requires live { AreLive base.now graph.now log.now formulas.now live.now }
    requires place { place < length live.now }
    requires found { IsFound base.now graph.now (facts_at log.now (take place live.now))
        (length live.now) found.old }
    ensures { OnOk result (IsFound base.now graph.now
        (facts_at log.now (take (place + 1) live.now)) (length live.now) found.new) }
{
    let unset = live.len() as u64;
    let number = live[place];
    let fact = &log[number];
    let formula = &formulas[number];
    let draw = draw_of(alloc, base, graph, &found.formulas, fact)?;
    let depth = depth_of(
        found.depths.as_slice(),
        found.formulas.kept.as_slice(),
        &draw,
    );
    keep_formulas(alloc, base, fact, formula, depth, &mut found.formulas)?;
    enter_terms(alloc, graph, formula, depth, unset, &mut found.depths)?;
    if let Some(draw) = draw {
        found.live.push(draw)?;
    }
    Ok(())
}

/// What is found in the live facts. It fails only where memory is wanting.
fn find_facts(
    alloc: Global,
    base: &Base,
    graph: &EGraph,
    log: &[Fact],
    formulas: &[Formula],
    live: &[usize],
) -> Result<Found, AllocError>
    requires { AreLive base.now graph.now log.now formulas.now live.now }
    ensures { IfOk result
        (IsFound base.now graph.now (facts_at log.now live.now) (length live.now)) }
{
    let mut found = nothing_found(alloc, graph, live.len() as u64)?;
    'places: for place in 0..live.len() {
        add_fact(alloc, base, graph, log, formulas, live, place, &mut found)?;
    }
    Ok(found)
}

/// What a round begins with, from the places of the live facts in the log of facts, beside which
/// stand their formulas, and the literals that hold. It fails only where memory is wanting.
pub fn survey_of(
    alloc: Global,
    base: &Base,
    graph: &EGraph,
    log: &[Fact],
    formulas: &[Formula],
    live: &[usize],
    items: &[Item],
) -> Result<Survey, AllocError>
    requires closed { IsClosedBase base.now }
    requires formulas { AllZip (λ fact f. formula_of base.now fact ≡ Some f) log.now formulas.now }
    requires places { All (λ k. k < length log.now) live.now }
    requires legal { IsLegal base.now (facts_at log.now live.now) }
    requires graph { IsGraph graph.now }
    requires closed_classes { IsCongruence graph.now.nodes (number_of graph.now) }
    requires nodes { terms_of graph.now.nodes
        ≡ active_terms (formulas_of base.now (facts_at log.now live.now)) }
    requires atoms { All (λ item. IsTrue (is_quantified item)
        → HasAtom base.now (facts_at log.now live.now) item.formula) items.now }
    ensures standing { IfOk result (λ s. IsStanding base.now (facts_at log.now live.now) items.now
        (standing_in graph.now s) (live_in s)) }
    ensures ready { IfOk result (λ s. IsReady (standing_in graph.now s) (live_in s)) }
{
    kept_laws();
    let found = find_facts(alloc, base, graph, log, formulas, live)?;
    let literals = literals_of(alloc, base, &found.formulas, items)?;
    Ok(Survey {
        depths: found.depths,
        formulas: found.formulas,
        literals,
        live: found.live,
    })
}
