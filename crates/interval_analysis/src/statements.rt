//! The walk of statements.
ghost use Rattle.std.specs.Prelude.{◌≡◌, IfOk, IfSome, OnOk, slice_get};
ghost use Rattle.std.specs.Option.{option_map};
ghost use Rattle.pap_tree.specs.Flowchart.{routine_of, body_of, stmt_then, eval, done};
ghost use Rattle.pap_tree.specs.Term.{term_of};
ghost use Rattle.pap_types.specs.private.ScopeViews.{scope_in};
ghost use Rattle.pap_types.specs.Routines.{body_named};
ghost use Rattle.interval_num.specs.declared.cause.RangeCause.TheVariants.{Wide};
ghost use Rattle.interval_walk.specs.Walked.{kept_range, range_kept_as};
ghost use Rattle.interval_analysis.specs.declared.expressions.Stop.TheVariants.{At};
ghost use Rattle.interval_analysis.specs.private.Changes.{changed};
ghost use Rattle.interval_analysis.specs.private.PlanViews.{ranges_in, branches_in};
ghost use Rattle.interval_analysis.specs.private.VariableViews.{AreHeld, GoesOn};
ghost use Rattle.interval_analysis.specs.private.VisitViews.{ComesIn, ComesInBoth, ComesInCall, ComesInLists, Gathers};
ghost use Rattle.pap_tree.specs.private.TreeViews.{if_of, methods_in};
ghost use Rattle.interval_analysis.specs.private.StatementViews.{CanWalkBody, CanWalkLists, CanAssign, CanPut, CanKeep, IsMethodBody, Passes, EnvAnswer, through_body, through_if, through_fork, through_first, through_second, through_both, evaluated, executed, assigned_in, first_spot, second_spot};
ghost use Rattle.interval_analysis.specs.private.StopViews.{IsBehindLists, RefusesAt, WithMemory};

use crate::branches::{Branches, Change};
use crate::conditions::Tested;
use crate::expressions::{Stop, Walk};
use crate::joins::meet;
use crate::stop::WalkStop;
use crate::variables::Variables;
use crate::visits::Visits;
use crate::weights::weight;
use interval_num::{Abs, RangeCause};
use pap_tree::{Expr, Kind, Method, Name, Stmt, written};
use pap_types::{FACTOR_PLACES, Typed};
use scaled_decimal::power_of_ten;
use std::alloc::AllocError;

/// Where the walk stands.
#[derive(Clone, Copy)]
pub(crate) struct Spot {
    pub method: Name,
    /// The number of the statement.
    pub at: u32,
    /// How many methods a chain may still have.
    pub chain: u32,
}

/// The lists of an IF, the first of which is numbered behind the IF, and the second behind the first.
#[derive(Clone, Copy)]
struct Fork<'a> {
    /// The number of the test's root.
    root: u32,
    yes: &'a [Stmt],
    no: &'a [Stmt],
}

// The walk goes as deep as statements are nested, 2,048 levels at most. What it calls on the way down stays out of line, so that a level
// takes less of the stack.
impl Walk<'_> {
    /// Takes the ranges of the variables through statements of a method, the first of which stands there. Answers the number
    /// behind them, or the first node that may fail.
    #[cycle(statements)]
    pub fn walk_body(
        &self,
        spot: Spot,
        body: &[Stmt],
        variables: &mut Variables,
        visits: &mut Visits,
    ) -> Result<u32, WalkStop>
        requires walk { CanWalkBody self.now (body_of body.now) spot.at }
        requires held { AreHeld self.now.plan.now variables.old }
        ensures passes { Passes (through_body self.now spot (body_of body.now) variables.old.ranges.items)
            variables.new.ranges.items result }
        ensures on { GoesOn self.now.plan.now variables.old variables.new }
        ensures visits { WithMemory result (Gathers (scope_in self.now.plan.now)
            (ComesIn self.now spot (body_of body.now)
            (ranges_in self.now.plan.now variables.old.ranges.items))
            visits.old visits.new) }
    {
        let mark = variables.notes.len();
        let mut next = spot.at;
        for stmt in body {
            variables.trim(mark)?;
            next = self.walk_statement(Spot { at: next, ..spot }, stmt, variables, visits)?;
        }
        Ok(next)
    }

    #[cycle(statements)]
    fn walk_statement(
        &self,
        spot: Spot,
        stmt: &Stmt,
        variables: &mut Variables,
        visits: &mut Visits,
    ) -> Result<u32, WalkStop>
        requires walk { CanWalkBody self.now (stmt_then stmt.now done) spot.at }
        requires held { AreHeld self.now.plan.now variables.old }
        ensures passes { Passes (through_body self.now spot (stmt_then stmt.now done) variables.old.ranges.items)
            variables.new.ranges.items result }
        ensures on { GoesOn self.now.plan.now variables.old variables.new }
        ensures visits { WithMemory result (Gathers (scope_in self.now.plan.now)
            (ComesIn self.now spot (stmt_then stmt.now done)
            (ranges_in self.now.plan.now variables.old.ranges.items))
            visits.old visits.new) }
    {
        let Spot { at, chain, .. } = spot;
        match stmt {
            Stmt::Eval { target, value } => {
                self.assign(spot, target, value, variables, visits)?;
                Ok(at + 1)
            }
            Stmt::If { test, yes, no } => self.walk_if(spot, test, yes, no, variables, visits),
            Stmt::Execute { method } => {
                visits.keep_place(&spot)?;
                self.walk_method(method, chain, variables, visits)?;
                Ok(at + 1)
            }
        }
    }

    /// Gives a target the range of a value.
    #[inline(never)]
    fn assign(
        &self,
        spot: Spot,
        target: &Name,
        value: &Expr,
        variables: &mut Variables,
        visits: &mut Visits,
    ) -> Result<(), WalkStop>
        requires walk { CanAssign self.now target.now value.now }
        requires held { AreHeld self.now.plan.now variables.old }
        ensures passes { EnvAnswer self.now (evaluated self.now spot target.now value.now variables.old.ranges.items)
            variables.new.ranges.items result }
        ensures on { GoesOn self.now.plan.now variables.old variables.new }
        ensures visits { WithMemory result (Gathers (scope_in self.now.plan.now)
            (ComesIn self.now spot (eval target.now (term_of value.now) done)
            (ranges_in self.now.plan.now variables.old.ranges.items))
            visits.old visits.new) }
    {
        match self.range_of(value, 0, variables) {
            Ok(value) => {
                let kept = self.put(target, value.range, variables)?;
                visits.keep_eval(&spot, kept)?;
                Ok(())
            }
            Err(stop) => {
                visits.keep_place(&spot)?;
                Err(WalkStop::at_node(self.alloc, stop, spot))
            }
        }
    }

    /// Gives a variable a range, and answers it as one of its kind keeps it. In a well-typed plan each target is a
    /// declared variable, so that the cases without a number or a declaration don't come.
    fn put(&self, target: &Name, range: Abs, variables: &mut Variables) -> Result<Abs, AllocError>
        requires walk { CanPut self.now.plan.now target.now range }
        requires held { AreHeld self.now.plan.now variables.old }
        ensures kept { IfOk result (λ kept. kept
            ≡ kept_range (scope_in self.now.plan.now) target.now range) }
        ensures put { OnOk result (ranges_in self.now.plan.now variables.new.ranges.items
            ≡ assigned_in self.now.plan.now target.now range variables.old.ranges.items) }
        ensures on { GoesOn self.now.plan.now variables.old variables.new }
    {
        let typed = self.plan.typed();
        let Some(number) = typed.variable(target) else {
            return Ok(range);
        };
        let kept = match typed.variable_at(number) {
            Some(declared) => kept_as(declared.kind, range),
            None => range,
        };
        variables.put(number, kept)?;
        Ok(kept)
    }

    /// Walks each list that can be reached, and joins the ranges where both can.
    #[cycle(statements)]
    #[inline(never)]
    fn walk_if<'b>(
        &self,
        spot: Spot,
        test: &Expr,
        yes: &'b [Stmt],
        no: &'b [Stmt],
        variables: &mut Variables,
        visits: &mut Visits,
    ) -> Result<u32, WalkStop>
        requires walk { CanWalkBody self.now (if_of test.now yes.now no.now) spot.at }
        requires held { AreHeld self.now.plan.now variables.old }
        ensures passes { Passes (through_if self.now spot test.now yes.now no.now variables.old.ranges.items)
            variables.new.ranges.items result }
        ensures on { GoesOn self.now.plan.now variables.old variables.new }
        ensures visits { WithMemory result (Gathers (scope_in self.now.plan.now)
            (ComesIn self.now spot (if_of test.now yes.now no.now)
            (ranges_in self.now.plan.now variables.old.ranges.items))
            visits.old visits.new) }
    {
        match self.test(test, 0, variables) {
            Ok(Tested { branches, next }) => {
                visits.keep_if(&spot, &branches)?;
                let root = next - 1;
                let fork = Fork { root, yes, no };
                self.walk_fork(spot, &fork, branches, variables, visits)
            }
            Err(stop) => {
                visits.keep_place(&spot)?;
                Err(WalkStop::at_node(self.alloc, stop, spot))
            }
        }
    }

    /// Walks the lists of an IF whose test has these branches.
    #[cycle(statements)]
    fn walk_fork(
        &self,
        spot: Spot,
        fork: &Fork,
        branches: Branches,
        variables: &mut Variables,
        visits: &mut Visits,
    ) -> Result<u32, WalkStop>
        requires walk { CanWalkLists self.now spot fork.now }
        requires held { AreHeld self.now.plan.now variables.old }
        ensures passes { Passes (through_fork self.now spot fork.now
            (branches_in self.now.plan.now variables.old.ranges.items branches))
            variables.new.ranges.items result }
        ensures on { GoesOn self.now.plan.now variables.old variables.new }
        ensures visits { WithMemory result (Gathers (scope_in self.now.plan.now)
            (ComesInLists self.now spot (body_of fork.now.yes.now) (body_of fork.now.no.now)
            (branches_in self.now.plan.now variables.old.ranges.items branches))
            visits.old visits.new) }
    {
        let Branches { holds, fails } = branches;
        match holds {
            None => match fails {
                None => Err(self.nowhere_at(spot, fork.root)),
                Some(failed) => self.walk_second(spot, fork, &failed, variables, visits),
            },
            Some(held) => match fails {
                None => self.walk_first(spot, fork, &held, variables, visits),
                Some(failed) => self.walk_both(spot, fork, &held, &failed, variables, visits),
            },
        }
    }

    #[cycle(statements)]
    #[inline(never)]
    fn walk_first(
        &self,
        spot: Spot,
        fork: &Fork,
        held: &[Change],
        variables: &mut Variables,
        visits: &mut Visits,
    ) -> Result<u32, WalkStop>
        requires walk { CanWalkLists self.now spot fork.now }
        requires held { AreHeld self.now.plan.now variables.old }
        ensures passes { Passes (through_first self.now spot fork.now (changed variables.old.ranges.items held.now))
            variables.new.ranges.items result }
        ensures on { GoesOn self.now.plan.now variables.old variables.new }
        ensures visits { WithMemory result (Gathers (scope_in self.now.plan.now)
            (ComesIn self.now (first_spot spot) (body_of fork.now.yes.now)
            (ranges_in self.now.plan.now (changed variables.old.ranges.items held.now)))
            visits.old visits.new) }
    {
        let at = spot.at;
        let first = Spot { at: at + 1, ..spot };
        let next = self.walk_branch(first, fork.yes, held, variables, visits)?;
        Ok(next + written(fork.no))
    }

    #[cycle(statements)]
    #[inline(never)]
    fn walk_second(
        &self,
        spot: Spot,
        fork: &Fork,
        failed: &[Change],
        variables: &mut Variables,
        visits: &mut Visits,
    ) -> Result<u32, WalkStop>
        requires walk { CanWalkLists self.now spot fork.now }
        requires held { AreHeld self.now.plan.now variables.old }
        ensures passes { Passes (through_second self.now spot fork.now (changed variables.old.ranges.items failed.now))
            variables.new.ranges.items result }
        ensures on { GoesOn self.now.plan.now variables.old variables.new }
        ensures visits { WithMemory result (Gathers (scope_in self.now.plan.now)
            (ComesIn self.now (second_spot spot fork.now) (body_of fork.now.no.now)
            (ranges_in self.now.plan.now (changed variables.old.ranges.items failed.now)))
            visits.old visits.new) }
    {
        let at = spot.at;
        let second = Spot {
            at: at + 1 + written(fork.yes),
            ..spot
        };
        self.walk_branch(second, fork.no, failed, variables, visits)
    }

    /// Walks a list after the changes of its branch.
    #[cycle(statements)]
    fn walk_branch(
        &self,
        spot: Spot,
        body: &[Stmt],
        changes: &[Change],
        variables: &mut Variables,
        visits: &mut Visits,
    ) -> Result<u32, WalkStop>
        requires walk { CanWalkBody self.now (body_of body.now) spot.at }
        requires held { AreHeld self.now.plan.now variables.old }
        ensures passes { Passes (through_body self.now spot (body_of body.now)
            (changed variables.old.ranges.items changes.now))
            variables.new.ranges.items result }
        ensures on { GoesOn self.now.plan.now variables.old variables.new }
        ensures visits { WithMemory result (Gathers (scope_in self.now.plan.now)
            (ComesIn self.now spot (body_of body.now)
            (ranges_in self.now.plan.now (changed variables.old.ranges.items changes.now)))
            visits.old visits.new) }
    {
        variables.apply(changes)?;
        self.walk_body(spot, body, variables, visits)
    }

    /// Walks both lists, each from the ranges that the test leaves it, and joins the ranges behind them; a join that fails is at
    /// the test's root. What the longer list has changed is joined in place.
    #[cycle(statements)]
    fn walk_both(
        &self,
        spot: Spot,
        fork: &Fork,
        held: &[Change],
        failed: &[Change],
        variables: &mut Variables,
        visits: &mut Visits,
    ) -> Result<u32, WalkStop>
        requires walk { CanWalkLists self.now spot fork.now }
        requires held { AreHeld self.now.plan.now variables.old }
        ensures passes { Passes
            (through_both self.now spot fork.now
            (changed variables.old.ranges.items held.now)
            (changed variables.old.ranges.items failed.now))
            variables.new.ranges.items result }
        ensures on { GoesOn self.now.plan.now variables.old variables.new }
        ensures visits { WithMemory result (Gathers (scope_in self.now.plan.now)
            (ComesInBoth self.now spot fork.now
            (changed variables.old.ranges.items held.now)
            (changed variables.old.ranges.items failed.now))
            visits.old visits.new) }
    {
        let typed = self.plan.typed();
        let first = weight(typed, fork.yes, self.weights);
        let second = weight(typed, fork.no, self.weights);
        if first < second {
            self.walk_second_last(spot, fork, held, failed, variables, visits)
        } else {
            self.walk_first_last(spot, fork, held, failed, variables, visits)
        }
    }

    /// Walks the first list, and from the ranges of before it the second one, also where the first stops.
    #[cycle(statements)]
    #[inline(never)]
    fn walk_second_last(
        &self,
        spot: Spot,
        fork: &Fork,
        held: &[Change],
        failed: &[Change],
        variables: &mut Variables,
        visits: &mut Visits,
    ) -> Result<u32, WalkStop>
        requires walk { CanWalkLists self.now spot fork.now }
        requires held { AreHeld self.now.plan.now variables.old }
        ensures passes { Passes
            (through_both self.now spot fork.now
            (changed variables.old.ranges.items held.now)
            (changed variables.old.ranges.items failed.now))
            variables.new.ranges.items result }
        ensures on { GoesOn self.now.plan.now variables.old variables.new }
        ensures visits { WithMemory result (Gathers (scope_in self.now.plan.now)
            (ComesInBoth self.now spot fork.now
            (changed variables.old.ranges.items held.now)
            (changed variables.old.ranges.items failed.now))
            visits.old visits.new) }
    {
        let outset = variables.notes.len();
        let at = spot.at;
        let first = Spot { at: at + 1, ..spot };
        let second = Spot {
            at: at + 1 + written(fork.yes),
            ..spot
        };
        let before = self.walk_branch(first, fork.yes, held, variables, visits);
        let mark = variables.notes.len();
        variables.return_to(outset)?;
        let behind = self.walk_branch(second, fork.no, failed, variables, visits);
        let next = behind_lists(before, behind)?;
        match meet(fork.root, variables, mark) {
            Ok(()) => Ok(next),
            Err(stop) => Err(WalkStop::at_node(self.alloc, stop, spot)),
        }
    }

    /// Walks the second list, and from the ranges of before it the first one, also where the second stops.
    #[cycle(statements)]
    #[inline(never)]
    fn walk_first_last(
        &self,
        spot: Spot,
        fork: &Fork,
        held: &[Change],
        failed: &[Change],
        variables: &mut Variables,
        visits: &mut Visits,
    ) -> Result<u32, WalkStop>
        requires walk { CanWalkLists self.now spot fork.now }
        requires held { AreHeld self.now.plan.now variables.old }
        ensures passes { Passes
            (through_both self.now spot fork.now
            (changed variables.old.ranges.items held.now)
            (changed variables.old.ranges.items failed.now))
            variables.new.ranges.items result }
        ensures on { GoesOn self.now.plan.now variables.old variables.new }
        ensures visits { WithMemory result (Gathers (scope_in self.now.plan.now)
            (ComesInBoth self.now spot fork.now
            (changed variables.old.ranges.items held.now)
            (changed variables.old.ranges.items failed.now))
            visits.old visits.new) }
    {
        let outset = variables.notes.len();
        let at = spot.at;
        let first = Spot { at: at + 1, ..spot };
        let second = Spot {
            at: at + 1 + written(fork.yes),
            ..spot
        };
        let behind = self.walk_branch(second, fork.no, failed, variables, visits);
        let mark = variables.notes.len();
        variables.return_to(outset)?;
        let before = self.walk_branch(first, fork.yes, held, variables, visits);
        let next = behind_lists(before, behind)?;
        match meet(fork.root, variables, mark) {
            Ok(()) => Ok(next),
            Err(stop) => Err(WalkStop::at_node(self.alloc, stop, spot)),
        }
    }

    /// Walks the body of a method in place.
    #[cycle(statements)]
    #[inline(never)]
    fn walk_method(
        &self,
        name: &Name,
        chain: u32,
        variables: &mut Variables,
        visits: &mut Visits,
    ) -> Result<(), WalkStop>
        requires { AreHeld self.now.plan.now variables.old }
        ensures passes { EnvAnswer self.now (executed self.now name.now chain variables.old.ranges.items)
            variables.new.ranges.items result }
        ensures on { GoesOn self.now.plan.now variables.old variables.new }
        ensures visits { WithMemory result (Gathers (scope_in self.now.plan.now)
            (ComesInCall self.now name.now chain
            (ranges_in self.now.plan.now variables.old.ranges.items))
            visits.old visits.new) }
    {
        let start = Spot {
            method: *name,
            at: 0,
            chain,
        };
        if chain == 0 {
            return Err(self.nowhere_at(start, 0));
        }
        match method_body(self.plan.typed(), name) {
            Some(body) => {
                let within = Spot {
                    chain: chain - 1,
                    ..start
                };
                self.walk_body(within, body, variables, visits)?;
                Ok(())
            }
            None => Err(self.nowhere_at(start, 0)),
        }
    }

    /// That a node can't be walked.
    fn nowhere_at(&self, spot: Spot, node: u32) -> WalkStop
        ensures { RefusesAt (At node Wide) spot result }
    {
        let stop = Stop::At {
            node,
            cause: RangeCause::Wide,
        };
        WalkStop::at_node(self.alloc, stop, spot)
    }
}

/// The number behind two lists, each of which was walked: that of the second, or the stop of the first, which counts before that of
/// the second. Where memory ran out in either, that is told.
fn behind_lists(
    before: Result<u32, WalkStop>,
    behind: Result<u32, WalkStop>,
) -> Result<u32, WalkStop>
    ensures { IsBehindLists before behind result }
{
    if let Err(WalkStop::Memory) = &behind {
        return behind;
    }
    before?;
    behind
}

fn method_at(plan: &Typed, number: usize) -> Option<&Method>
    ensures { option_map (λ m. routine_of m.now) result ≡ slice_get (methods_in plan.now) number }
{
    plan.plan().methods.get(number)
}

/// The body of a method other than MAIN.
fn method_body<'a>(plan: &'a Typed, name: &Name) -> Option<&'a [Stmt]>
    ensures body { option_map (λ body. body_of body.now) result
        ≡ body_named (methods_in plan.now) name.now }
    ensures walk { IfSome result (λ body. IsMethodBody plan.now (body_of body.now)) }
{
    // For the proof: a method's body is well typed, and its nodes and statements are counted.
    let _counted = plan.plan();
    match plan.method(name) {
        Some(number) => match method_at(plan, number) {
            Some(method) => Some(method.body.as_slice()),
            None => None,
        },
        None => None,
    }
}

/// A range as a variable of a kind keeps it: that of a `double` has three places.
fn kept_as(kind: Kind, range: Abs) -> Abs
    requires { CanKeep kind range }
    ensures { result ≡ range_kept_as kind range }
{
    match kind {
        Kind::Factor => at_three_places(range),
        Kind::Int | Kind::Long | Kind::Big | Kind::Table => range,
    }
}

fn at_three_places(range: Abs) -> Abs
    requires { CanKeep Kind.Factor range }
    ensures { result ≡ range_kept_as Kind.Factor range }
{
    let power = power_of_ten(FACTOR_PLACES - range.s_hi());
    Abs::new(
        range.lo() * power,
        range.hi() * power,
        FACTOR_PLACES,
        FACTOR_PLACES,
    )
}
