//! Reports on goals.

ghost use Rattle.std.specs.Prelude.{◌≡◌, ◌≢◌, false, true, IfOk};
ghost use Rattle.std.specs.Option.{IsSome};
ghost use Rattle.esc_fact.specs.Base.{formulas_in};
ghost use Rattle.esc_fact.specs.Fact.{formulas_of};
ghost use Rattle.esc_fact.specs.Legal.{IsClosedBase, first_facts};
ghost use Rattle.esc_live.specs.Promises.{IsGiven};
ghost use Rattle.esc_live.specs.View.{logged};
ghost use Rattle.esc_options.specs.declared.options.Limits.{Limits as Asked};
ghost use Rattle.esc_report.specs.Text.{HasEachFormula};
ghost use Rattle.esc_search.specs.Levels.{KeepsLevels};
ghost use Rattle.esc_search.specs.Proving.{ComesTo, IsLeftOpen, IsReady, IsRefutedLog};
ghost use Rattle.esc_search.specs.declared.outcome.Outcome.TheVariants as ended;
ghost use Rattle.esc_session.specs.Back.{IsAgain};
ghost use Rattle.esc_session.specs.ReportingInside.{AnswersBase, GoalTallies, IsToldOf};
ghost use Rattle.esc_session.specs.ReportingInside.{SearchTallies};
ghost use Rattle.esc_term.specs.Refuted.{Refuted};

use esc_context::counterexample;
use esc_fact::{Base, Fact, Facts};
use esc_outcome::{branch_laws, found_laws};
use esc_report::Report;
use esc_search::{Outcome, Search, search_laws};
use esc_term::{Copied, Formulas, refutation_laws};
use sqlite_items::Items;
use std::alloc::{AllocError, Global};

/// The facts that name a formula of the base, which has a goal. It fails only where memory is
/// wanting.
fn named_facts(alloc: Global, base: &Base) -> Result<Facts, AllocError>
    requires goal { IsSome base.now.negated }
    ensures { IfOk result (λ facts. facts ≡ first_facts base.now) }
{
    let mut facts = Items::new(alloc);
    'background: while facts.len() < base.background.len() {
        facts.push(Fact::Given(facts.len() as u64))?;
    }
    facts.push(Fact::NegGoal)?;
    Ok(facts)
}

/// The formulas of the base, which has a goal. It fails only where memory is wanting.
fn named_formulas(alloc: Global, base: &Base) -> Result<Formulas, AllocError>
    requires goal { IsSome base.now.negated }
    ensures { IfOk result (λ formulas. formulas ≡ formulas_in base.now) }
{
    let mut formulas = base.background.copied(alloc)?;
    let Some(negated) = &base.negated else {
        unreachable!()
    };
    formulas.push(negated.copied(alloc)?)?;
    Ok(formulas)
}

/// The report on a goal where what is assumed is refuted.
fn by_assumptions(alloc: Global, base: &Base, goal: u64) -> Result<Report, AllocError>
    requires goal { IsSome base.now.negated }
    requires refuted { Refuted base.now.background }
    ensures answers { IfOk result (λ report. (limits : Asked) → AnswersBase limits base.now goal report) }
    ensures told { IfOk result (IsToldOf ended.Closed) }
    ensures formulas { IfOk result HasEachFormula }
{
    branch_laws();
    found_laws();
    refutation_laws();
    let log = named_facts(alloc, base)?;
    let formulas = named_formulas(alloc, base)?;
    Ok(Report::Valid {
        goal,
        log,
        formulas,
    })
}

/// The report on a goal whose negation the search refuted.
fn valid(search: &Search, base: &Base, goal: u64) -> Result<Report, AllocError>
    requires refuted { IsRefutedLog base.now search.now }
    requires formulas { logged search.now.branch ≡ formulas_of base.now search.now.log }
    ensures answers { IfOk result (AnswersBase search.now.limits base.now goal) }
    ensures told { IfOk result (IsToldOf ended.Closed) }
    ensures formulas { IfOk result HasEachFormula }
{
    found_laws();
    let _base = base;
    let (log, formulas) = search.used()?;
    Ok(Report::Valid {
        goal,
        log,
        formulas,
    })
}

/// The report on a goal of which a branch is left open.
fn invalid(alloc: Global, search: &Search, base: &Base, goal: u64) -> Result<Report, AllocError>
    requires left { IsLeftOpen base.now search.now }
    ensures answers { IfOk result (AnswersBase search.now.limits base.now goal) }
    ensures told { IfOk result (IsToldOf ended.Open) }
    ensures formulas { IfOk result HasEachFormula }
{
    let live = search.live()?;
    let branch = search.branch();
    let literals = branch.items()?;
    let found = counterexample(alloc, &branch.sharing, base, &live, &literals)?;
    Ok(Report::Invalid { goal, found })
}

/// The report on a goal whose search did not refute every branch.
fn open_report(
    alloc: Global,
    search: &Search,
    outcome: Outcome,
    base: &Base,
    goal: u64,
) -> Result<Report, AllocError>
    requires comes { ComesTo base.now search.now outcome }
    requires left { outcome ≢ ended.Closed }
    ensures answers { IfOk result (AnswersBase search.now.limits base.now goal) }
    ensures told { IfOk result (IsToldOf outcome) }
    ensures formulas { IfOk result HasEachFormula }
{
    match outcome {
        Outcome::Closed => unreachable!(),
        Outcome::Open => invalid(alloc, search, base, goal),
        Outcome::Stopped(cause) => Ok(Report::Unknown { goal, cause }),
        Outcome::Memory => Err(AllocError),
    }
}

/// Searches for a refutation of the base, and reports on its goal.
fn proved(alloc: Global, search: &mut Search, base: &Base, goal: u64) -> Result<Report, AllocError>
    requires closed { IsClosedBase base.now }
    requires goal { IsSome base.now.negated }
    requires ready { IsReady base.now search.old }
    ensures answers { IfOk result (AnswersBase search.old.limits base.now goal) }
    ensures formulas { IfOk result HasEachFormula }
    ensures given { IsGiven search.new.branch }
    ensures levels { KeepsLevels search.old search.new }
    ensures tally { SearchTallies result search.old.tally search.new.tally }
{
    match search.prove(base) {
        Outcome::Closed => valid(search, base, goal),
        outcome => open_report(alloc, search, outcome, base, goal),
    }
}

/// The same in a level of its own, after which the search is as it was.
fn searched(
    alloc: Global,
    search: &mut Search,
    base: &Base,
    goal: u64,
) -> Result<Report, AllocError>
    requires closed { IsClosedBase base.now }
    requires goal { IsSome base.now.negated }
    requires ready { IsReady base.now search.old }
    ensures answers { IfOk result (AnswersBase search.old.limits base.now goal) }
    ensures formulas { IfOk result HasEachFormula }
    ensures again { IsAgain search.old search.new }
    ensures tally { SearchTallies result search.old.tally search.new.tally }
{
    search_laws();
    let level = search.begin_level()?;
    let report = proved(alloc, search, base, goal);
    search.end_level(level);
    report
}

/// The report on the goal of the base, where it is told whether what is assumed is refuted.
pub(crate) fn sought(
    alloc: Global,
    closed: bool,
    search: &mut Search,
    base: &Base,
    goal: u64,
) -> Result<Report, AllocError>
    requires closed { IsClosedBase base.now }
    requires goal { IsSome base.now.negated }
    requires refuted { closed ≡ true → Refuted base.now.background }
    requires ready { closed ≡ false → IsReady base.now search.old }
    ensures answers { IfOk result (AnswersBase search.old.limits base.now goal) }
    ensures formulas { IfOk result HasEachFormula }
    ensures again { IsAgain search.old search.new }
    ensures tally { GoalTallies closed result search.old.tally search.new.tally }
{
    if closed {
        return by_assumptions(alloc, base, goal);
    }
    searched(alloc, search, base, goal)
}
