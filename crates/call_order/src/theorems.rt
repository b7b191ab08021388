//! Laws of the order of methods and of the bound on chains.
ghost use Rattle.call_order.specs.ChainLaws.{ChainsClose};
ghost use Rattle.call_order.specs.Executed.{OrdersHaveCalls};
ghost use Rattle.call_order.specs.OrderLaws.{OrdersHaveOneAnswer, HaveSmallBounds};

/// Where no chain has more than 64 methods, what a method does, costs at most and how long it is are those of its body, and
/// a greater bound on chains changes nothing.
pub fn chain_laws()
    ensures { ChainsClose }
{}

/// A plan has an order or a fault, never both, and one fault. What a method executes stands before it in an order.
pub fn order_laws()
    ensures one_answer { OrdersHaveOneAnswer }
    ensures calls { OrdersHaveCalls }
{}

/// A run of an ordered plan costs at most 10^9 steps.
pub fn bound_laws()
    ensures { HaveSmallBounds }
{}
