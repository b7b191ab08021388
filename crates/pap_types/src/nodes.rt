//! The checks of an expression's nodes, in the order of their numbers.
ghost use Rattle.std.specs.Prelude.{◌≡◌, ◌+◌, ◌<◌, ◌^◌};
ghost use Rattle.pap_tree.specs.Term.{Term, term_of, leaf, named, item, one, two, choice, unary, value_of, value_of_scaled, new_big, set_scale, operator, method, divide};
ghost use Rattle.pap_tree.specs.Numbering.{nodes};
ghost use Rattle.pap_types.specs.Kinds.{takes_two};
ghost use Rattle.pap_types.specs.Checks.{place};
ghost use Rattle.pap_types.specs.private.CheckViews.{HasNumbers, NodesAnswer, PairAnswer, OwnAnswer, scope_of_statement};

use crate::TypeFault;
use crate::kinds::{
    NodeKind, kind_of_call, kind_of_operator, kind_of_unary, takes_operator, takes_unary,
};
use crate::scope::Scope;
use pap_tree::{Binary, Call, Expr, Name, Place, Unary};
use scaled_decimal::Mode;

/// What is known of an expression whose nodes pass their checks: its kind, and the number that follows its nodes'.
#[derive(Clone, Copy)]
pub(crate) struct Checked {
    pub kind: NodeKind,
    pub next: u32,
}

/// The same of two operands, the second of which is numbered behind the first.
#[derive(Clone, Copy)]
pub(crate) struct Operands {
    pub first: Checked,
    pub second: Checked,
}

/// The statement whose expression is checked.
#[derive(Clone, Copy)]
pub(crate) struct Statement<'a> {
    pub scope: Scope<'a>,
    pub method: Name,
    pub number: u32,
}

impl Statement<'_> {
    /// The place of a node.
    pub fn place(&self, node: u32) -> Place
        ensures { result ≡ place self.now.method self.now.number node }
    {
        let method = self.method;
        let stmt = self.number;
        Place { method, stmt, node }
    }

    /// The kind of an expression whose nodes are numbered from `at`, or the first fault of its nodes.
    #[cycle(check)]
    pub fn check(&self, e: &Expr, at: u32) -> Result<Checked, TypeFault>
        requires numbered { HasNumbers self.now }
        requires room { at + nodes (term_of e.now) < 2 ^ 32 }
        ensures { NodesAnswer self.now (term_of e.now) at result }
    {
        match e {
            Expr::Int(_) => Ok(passed(NodeKind::Int, at)),
            Expr::Long(_) => Ok(passed(NodeKind::Long, at)),
            Expr::Point(_) => Ok(passed(NodeKind::Fraction, at)),
            Expr::Text(_) | Expr::Known(_) => Ok(passed(NodeKind::Big, at)),
            Expr::Var(name) => self.check_name(name, at),
            Expr::Item(table, index) => self.check_item(table, index, at),
            Expr::ValueOf(operand) => self.check_value_of(operand, at),
            Expr::ValueOfScaled(operand, scale) => self.check_scaled(operand, *scale, at),
            Expr::NewInt(operand) => self.check_new(operand, at),
            Expr::Unary(op, operand) => self.check_unary(*op, operand, at),
            Expr::Binary(op, left, right) => self.check_operator(*op, left, right, at),
            Expr::Call(call, receiver, argument) => self.check_call(*call, receiver, argument, at),
            Expr::Divide(receiver, divisor, scale, mode) => {
                self.check_divide(receiver, divisor, *scale, *mode, at)
            }
            Expr::SetScale(receiver, scale, mode) => {
                self.check_set_scale(receiver, *scale, *mode, at)
            }
            Expr::Choose(test, first, second) => self.check_choice(test, first, second, at),
        }
    }

    /// The kinds of two operands, the second of which is numbered behind the first.
    #[cycle(check)]
    fn check_two(&self, left: &Expr, right: &Expr, at: u32) -> Result<Operands, TypeFault>
        requires numbered { HasNumbers self.now }
        requires room { at + nodes (term_of left.now) + nodes (term_of right.now) < 2 ^ 32 }
        ensures { PairAnswer self.now (term_of left.now) (term_of right.now) at result }
    {
        let first = self.check(left, at)?;
        let second = self.check(right, first.next)?;
        Ok(Operands { first, second })
    }

    #[cycle(check)]
    fn check_value_of(&self, operand: &Expr, at: u32) -> Result<Checked, TypeFault>
        requires numbered { HasNumbers self.now }
        requires room { at + nodes (term_of operand.now) + 1 < 2 ^ 32 }
        ensures { NodesAnswer self.now (one value_of (term_of operand.now)) at result }
    {
        let inner = self.check(operand, at)?;
        self.own(inner.kind.is_convertible(), NodeKind::Big, inner.next)
    }

    #[cycle(check)]
    fn check_scaled(&self, operand: &Expr, scale: u8, at: u32) -> Result<Checked, TypeFault>
        requires numbered { HasNumbers self.now }
        requires room { at + nodes (term_of operand.now) + 1 < 2 ^ 32 }
        ensures { NodesAnswer self.now
            (one (value_of_scaled scale) (term_of operand.now)) at result }
    {
        let inner = self.check(operand, at)?;
        self.own(inner.kind.is_whole(), NodeKind::Big, inner.next)
    }

    #[cycle(check)]
    fn check_new(&self, operand: &Expr, at: u32) -> Result<Checked, TypeFault>
        requires numbered { HasNumbers self.now }
        requires room { at + nodes (term_of operand.now) + 1 < 2 ^ 32 }
        ensures { NodesAnswer self.now (one new_big (term_of operand.now)) at result }
    {
        let inner = self.check(operand, at)?;
        self.own(inner.kind.is_whole(), NodeKind::Big, inner.next)
    }

    #[cycle(check)]
    fn check_unary(&self, op: Unary, operand: &Expr, at: u32) -> Result<Checked, TypeFault>
        requires numbered { HasNumbers self.now }
        requires room { at + nodes (term_of operand.now) + 1 < 2 ^ 32 }
        ensures { NodesAnswer self.now (one (unary op) (term_of operand.now)) at result }
    {
        let inner = self.check(operand, at)?;
        self.own(
            takes_unary(op, inner.kind),
            kind_of_unary(op, inner.kind),
            inner.next,
        )
    }

    #[cycle(check)]
    fn check_set_scale(
        &self,
        operand: &Expr,
        scale: u8,
        mode: Mode,
        at: u32,
    ) -> Result<Checked, TypeFault>
        requires numbered { HasNumbers self.now }
        requires room { at + nodes (term_of operand.now) + 1 < 2 ^ 32 }
        ensures { NodesAnswer self.now
            (one (set_scale scale mode) (term_of operand.now)) at result }
    {
        let inner = self.check(operand, at)?;
        self.own(inner.kind.is_big(), NodeKind::Big, inner.next)
    }

    #[cycle(check)]
    fn check_operator(
        &self,
        op: Binary,
        left: &Expr,
        right: &Expr,
        at: u32,
    ) -> Result<Checked, TypeFault>
        requires numbered { HasNumbers self.now }
        requires room { at + nodes (term_of left.now) + nodes (term_of right.now) + 1 < 2 ^ 32 }
        ensures { NodesAnswer self.now
            (two (operator op) (term_of left.now) (term_of right.now)) at result }
    {
        let both = self.check_two(left, right, at)?;
        self.own(
            takes_operator(op, left, both.first.kind, right, both.second.kind),
            kind_of_operator(op, both.first.kind, both.second.kind),
            both.second.next,
        )
    }

    #[cycle(check)]
    fn check_call(
        &self,
        call: Call,
        left: &Expr,
        right: &Expr,
        at: u32,
    ) -> Result<Checked, TypeFault>
        requires numbered { HasNumbers self.now }
        requires room { at + nodes (term_of left.now) + nodes (term_of right.now) + 1 < 2 ^ 32 }
        ensures { NodesAnswer self.now
            (two (method call) (term_of left.now) (term_of right.now)) at result }
    {
        let both = self.check_two(left, right, at)?;
        self.own(
            self.takes_call(call, both.first.kind, right, both.second.kind),
            kind_of_call(call),
            both.second.next,
        )
    }

    #[cycle(check)]
    fn check_divide(
        &self,
        left: &Expr,
        right: &Expr,
        scale: u8,
        mode: Mode,
        at: u32,
    ) -> Result<Checked, TypeFault>
        requires numbered { HasNumbers self.now }
        requires room { at + nodes (term_of left.now) + nodes (term_of right.now) + 1 < 2 ^ 32 }
        ensures { NodesAnswer self.now
            (two (divide scale mode) (term_of left.now) (term_of right.now)) at result }
    {
        let both = self.check_two(left, right, at)?;
        self.own(
            both.first.kind.are_big(both.second.kind),
            NodeKind::Big,
            both.second.next,
        )
    }

    #[cycle(check)]
    fn check_choice(
        &self,
        test: &Expr,
        first: &Expr,
        second: &Expr,
        at: u32,
    ) -> Result<Checked, TypeFault>
        requires numbered { HasNumbers self.now }
        requires room { at + nodes (term_of test.now) + nodes (term_of first.now)
            + nodes (term_of second.now) + 1 < 2 ^ 32 }
        ensures { NodesAnswer self.now
            (choice (term_of test.now) (term_of first.now) (term_of second.now)) at result }
    {
        let tested = self.check(test, at)?;
        let parts = self.check_two(first, second, tested.next)?;
        let passes = tested.kind.takes_parts(parts.first.kind, parts.second.kind);
        self.own(
            passes,
            parts.first.kind.wider(parts.second.kind),
            parts.second.next,
        )
    }

    #[cycle(check)]
    fn check_item(&self, table: &Name, index: &Expr, at: u32) -> Result<Checked, TypeFault>
        requires numbered { HasNumbers self.now }
        requires room { at + nodes (term_of index.now) + 1 < 2 ^ 32 }
        ensures { NodesAnswer self.now (item table.now (term_of index.now)) at result }
    {
        let inner = self.check(index, at)?;
        let named = self.check_name(table, inner.next)?;
        let passes = named.kind.takes_index(inner.kind);
        self.own(passes, NodeKind::Big, inner.next)
    }

    /// A name is declared.
    fn check_name(&self, name: &Name, at: u32) -> Result<Checked, TypeFault>
        requires numbered { HasNumbers self.now }
        requires room { at + 1 < 2 ^ 32 }
        ensures { NodesAnswer self.now (leaf (named name.now)) at result }
    {
        match self.scope.declaration(name) {
            Some(declared) => Ok(passed(NodeKind::of_declared(declared.kind), at)),
            None => Err(TypeFault::Unknown {
                name: *name,
                place: self.place(at),
            }),
        }
    }

    /// Whether a method takes its receiver and its argument.
    fn takes_call(&self, call: Call, receiver: NodeKind, argument: &Expr, kind: NodeKind) -> bool
        requires numbered { HasNumbers self.now }
        ensures { (e : Term) → result ≡ takes_two (scope_of_statement self.now)
            (method call) e receiver (term_of argument.now) kind }
    {
        let are_big = receiver.are_big(kind);
        match call {
            Call::DivideExact => are_big && self.scope.shows_plain_divisor(argument),
            _ => are_big,
        }
    }

    /// A node whose operands are checked.
    fn own(&self, passes: bool, kind: NodeKind, at: u32) -> Result<Checked, TypeFault>
        requires room { at + 1 < 2 ^ 32 }
        ensures { OwnAnswer self.now passes kind at result }
    {
        if !passes {
            return Err(TypeFault::Kind {
                place: self.place(at),
            });
        }
        Ok(passed(kind, at))
    }
}

/// A node that passes, with its kind and number.
fn passed(kind: NodeKind, at: u32) -> Checked
    requires room { at + 1 < 2 ^ 32 }
    ensures kind { result.kind ≡ kind }
    ensures next { result.next ≡ at + 1 }
{
    Checked { kind, next: at + 1 }
}
