//! The ranges of expressions.
ghost use Rattle.std.specs.Prelude.{◌≡◌, ◌<◌, OnOk};
ghost use Rattle.pap_tree.specs.Term.{term_of, leaf, named};
ghost use Rattle.pap_types.specs.Scopes.{number_of};
ghost use Rattle.pap_types.specs.private.ScopeViews.{variables_in};
ghost use Rattle.interval_analysis.specs.private.PlanViews.{IsSized, name_range_in, ranges_after, branches_in};
ghost use Rattle.pap_tree.specs.Shapes.{leaf_meant};
ghost use Rattle.interval_analysis.specs.private.VariableViews.{AreHeld, GoesOn, IsLeft};
ghost use Rattle.pap_tree.specs.private.TreeViews.{choice_of};
ghost use Rattle.interval_analysis.specs.private.ExpressionViews.{CanWalk, CanWalkTwo, CanWalkParts, RangeAnswer, OperandsAnswer, PartAnswer, PartsAnswer};

use crate::branches::{Branches, Change};
use crate::conditions::Tested;
use crate::names::{kind_named, single};
use crate::nodes::{either, item, literal, named, one, reached, two, unreached};
use crate::operations::read;
use crate::tables::TabledPlan;
use crate::variables::Variables;
use interval_num::{Abs, RangeCause};
use pap_tree::{Expr, Leaf, Name, Shape, shape_of};
use pap_types::{NodeKind, outline_of};
use scaled_decimal::Dec;
use std::alloc::{AllocError, Global};

/// Why the walk of an expression stops.
#[derive(Drop)]
pub(crate) enum Stop {
    /// A node may fail.
    At {
        node: u32,
        cause: RangeCause,
    },
    /// A node may fail, whose only operand has this range there.
    AtOne {
        node: u32,
        cause: RangeCause,
        operand: Abs,
    },
    /// A node may fail, whose operands have these ranges there.
    AtTwo {
        node: u32,
        cause: RangeCause,
        first: Abs,
        second: Abs,
    },
    /// Memory ran out.
    Memory,
}

impl From<AllocError> for Stop {
    ghost use Rattle.interval_analysis.specs.declared.expressions.Stop.TheVariants.{Memory};

    ghost from_gives = { λ _ stop. stop ≡ Memory };

    fn from(_error: AllocError) -> Stop {
        Stop::Memory
    }
}

/// What is known of an expression whose nodes can't fail: its range, its kind, and the number that follows its nodes'.
#[derive(Clone, Copy)]
pub(crate) struct Ranged {
    pub range: Abs,
    pub kind: NodeKind,
    pub next: u32,
    /// The number of the variable, where the expression is its name.
    pub variable: Option<usize>,
}

/// The same of two operands, the second of which is numbered behind the first.
#[derive(Clone, Copy)]
pub(crate) struct Operands {
    pub first: Ranged,
    pub second: Ranged,
}

/// The same of a part of a conditional, which has a range where it can be reached.
#[derive(Clone, Copy)]
pub(crate) struct Part {
    pub range: Option<Abs>,
    pub kind: NodeKind,
    pub next: u32,
}

/// The plan whose expressions are walked.
#[derive(Clone, Copy)]
pub(crate) struct Walk<'a> {
    pub alloc: Global,
    pub plan: &'a TabledPlan<'a>,
    /// The weights of the methods by number.
    pub weights: &'a [u64],
}

impl Walk<'_> {
    /// The range of an expression whose nodes are numbered from `at`, or its first node that may fail.
    #[cycle(walk)]
    pub fn range_of(&self, e: &Expr, at: u32, variables: &mut Variables) -> Result<Ranged, Stop>
        requires walk { CanWalk self.now (term_of e.now) at }
        requires held { AreHeld self.now.plan.now variables.old }
        ensures answer { RangeAnswer self.now (term_of e.now) at variables.old.ranges.items result }
        ensures left { OnOk result (IsLeft variables.old variables.new) }
        ensures on { GoesOn self.now.plan.now variables.old variables.new }
    {
        match shape_of(e) {
            Shape::Leaf(source) => self.range_of_leaf(&source, at, &variables.ranges),
            Shape::Item(name, index) => {
                let chosen = self.range_of(index, at, variables)?;
                item(self.plan.table(name), chosen)
            }
            Shape::One(op, operand) => {
                let a = self.range_of(operand, at, variables)?;
                one(op, operand, a)
            }
            Shape::Two(op, left, right) => {
                let operands = self.operands(left, right, at, variables)?;
                two(self.plan.typed(), op, right, operands)
            }
            Shape::Choice(test, first, second) => {
                self.range_of_choice(test, first, second, at, variables)
            }
        }
    }

    /// The range of a literal or of a name.
    fn range_of_leaf(&self, source: &Leaf, at: u32, ranges: &[Abs]) -> Result<Ranged, Stop>
        requires walk { CanWalk self.now (leaf (leaf_meant source.now)) at }
        requires sized { IsSized self.now.plan.now ranges.now }
        ensures { RangeAnswer self.now (leaf (leaf_meant source.now)) at ranges.now result }
    {
        match source {
            Leaf::Int(number) => literal(Dec::new(*number as i128, 0), NodeKind::Int, at),
            Leaf::Long(number) => literal(Dec::new(*number as i128, 0), NodeKind::Long, at),
            Leaf::Point(number) => literal(*number, NodeKind::Fraction, at),
            Leaf::Text(number) => literal(*number, NodeKind::Big, at),
            Leaf::Known(known) => literal(known.value(), NodeKind::Big, at),
            Leaf::Var(name) => self.range_of_name(name, at, ranges),
        }
    }

    fn range_of_name(&self, name: &Name, at: u32, ranges: &[Abs]) -> Result<Ranged, Stop>
        requires walk { CanWalk self.now (leaf (named name.now)) at }
        requires sized { IsSized self.now.plan.now ranges.now }
        ensures { RangeAnswer self.now (leaf (named name.now)) at ranges.now result }
    {
        let typed = self.plan.typed();
        let variable = self.plan.variable(name);
        let kind = kind_named(typed, name, variable);
        match self.value_of_name(name, variable, ranges) {
            Some(range) => named(variable, read(kind, range), kind, at),
            None => named(variable, Err(RangeCause::Wide), kind, at),
        }
    }

    /// The range of the variable of this number, which has the name, or that of a constant's value.
    fn value_of_name(&self, name: &Name, variable: Option<usize>, ranges: &[Abs]) -> Option<Abs>
        requires sized { IsSized self.now.plan.now ranges.now }
        requires number { variable ≡ number_of (variables_in self.now.plan.now) name.now }
        ensures { result ≡ name_range_in self.now.plan.now name.now ranges.now }
    {
        match variable {
            Some(number) => Some(ranges[number]),
            None => match self.plan.typed().constant_value(name) {
                Some(value) => Some(single(value)),
                None => None,
            },
        }
    }

    /// The ranges of two operands, the first of which is numbered from `at`.
    #[cycle(walk)]
    pub fn operands(
        &self,
        left: &Expr,
        right: &Expr,
        at: u32,
        variables: &mut Variables,
    ) -> Result<Operands, Stop>
        requires walk { CanWalkTwo self.now (term_of left.now) (term_of right.now) at }
        requires held { AreHeld self.now.plan.now variables.old }
        ensures answer { OperandsAnswer self.now (term_of left.now) (term_of right.now) at
            variables.old.ranges.items result }
        ensures left { OnOk result (IsLeft variables.old variables.new) }
        ensures on { GoesOn self.now.plan.now variables.old variables.new }
    {
        let first = self.range_of(left, at, variables)?;
        let second = self.range_of(right, first.next, variables)?;
        Ok(Operands { first, second })
    }

    /// The range of a conditional: that of the part that can be reached, or the join of both.
    #[cycle(walk)]
    fn range_of_choice(
        &self,
        test: &Expr,
        first: &Expr,
        second: &Expr,
        at: u32,
        variables: &mut Variables,
    ) -> Result<Ranged, Stop>
        requires walk { CanWalk self.now (choice_of test.now first.now second.now) at }
        requires held { AreHeld self.now.plan.now variables.old }
        ensures answer { RangeAnswer self.now (choice_of test.now first.now second.now) at
            variables.old.ranges.items result }
        ensures left { OnOk result (IsLeft variables.old variables.new) }
        ensures on { GoesOn self.now.plan.now variables.old variables.new }
    {
        let Tested { branches, next } = self.test(test, at, variables)?;
        self.range_of_parts(first, second, next, &branches, variables)
    }

    /// That of its parts, which are numbered from `at`, where its test has these branches.
    #[cycle(walk)]
    fn range_of_parts(
        &self,
        first: &Expr,
        second: &Expr,
        at: u32,
        branches: &Branches,
        variables: &mut Variables,
    ) -> Result<Ranged, Stop>
        requires walk { CanWalkParts self.now (term_of first.now) (term_of second.now) at }
        requires held { AreHeld self.now.plan.now variables.old }
        ensures answer { PartsAnswer self.now (term_of first.now) (term_of second.now) at
            (branches_in self.now.plan.now variables.old.ranges.items branches.now) result }
        ensures left { OnOk result (IsLeft variables.old variables.new) }
        ensures on { GoesOn self.now.plan.now variables.old variables.new }
    {
        let one = self.range_where(first, at, &branches.holds, variables)?;
        let other = self.range_where(second, one.next, &branches.fails, variables)?;
        either(one, other)
    }

    /// The range of a part after the changes of its branch, if that can be reached.
    #[cycle(walk)]
    fn range_where(
        &self,
        e: &Expr,
        at: u32,
        changes: &Option<Vec<Change>>,
        variables: &mut Variables,
    ) -> Result<Part, Stop>
        requires walk { CanWalk self.now (term_of e.now) at }
        requires held { AreHeld self.now.plan.now variables.old }
        ensures answer { PartAnswer self.now (term_of e.now) at
            (ranges_after self.now.plan.now variables.old.ranges.items changes.now) result }
        ensures left { OnOk result (IsLeft variables.old variables.new) }
        ensures on { GoesOn self.now.plan.now variables.old variables.new }
    {
        let Some(changes) = changes else {
            return Ok(unreached(outline_of(self.plan.typed(), e, at)));
        };
        let mark = variables.notes.len();
        variables.apply(changes)?;
        let ranged = self.range_of(e, at, variables)?;
        variables.take_back(mark);
        Ok(reached(ranged))
    }
}
