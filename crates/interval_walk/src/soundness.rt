//! The laws of the walk. The functions do nothing; their contracts are the laws.

ghost use Rattle.interval_walk.specs.Asked.{NothingIsRefusedOutright};
ghost use Rattle.interval_walk.specs.Reading.{NothingIsRefusedAtReading};
ghost use Rattle.interval_walk.specs.Refusals.{RefusalsAreRows};
ghost use Rattle.interval_walk.specs.Soundness.{AnalysisIsSound, RangesHaveShape, SomeBranchIsReached, NoRangeGetsEmpty};
ghost use Rattle.interval_walk.specs.Visits.{ExecutedAreVisited};
ghost use Rattle.interval_walk.specs.WalkReading.{WalksReadAll};

/// Where the walk of a well-typed plan passes, each list of inputs that its limits admit is safe, and each output lies in its
/// range and within the bound of outputs.
pub fn admitted_inputs_are_safe()
    ensures { AnalysisIsSound }
{}

/// Where the walk of a well-typed plan passes, it comes to each statement that a run on admitted inputs executes, with ranges in which
/// the values of the variables lie there. The value that an EVAL puts lies in the range that the walk puts there, and the exit that an
/// IF takes is open there. So no such run executes a statement to which the walk never comes, or takes an exit that is never open.
pub fn executed_statements_are_visited()
    ensures { ExecutedAreVisited }
{}

/// The range of an expression that the walk passes is that of a whole number of its kind's bits, or has at most 30 places.
pub fn ranges_suit_their_kinds()
    ensures { RangesHaveShape }
{}

/// A test that the walk passes, in ranges of which none is empty, has a branch that can be reached.
pub fn some_branch_is_reached()
    ensures { SomeBranchIsReached }
{}

/// Where the numbers of a well-typed plan are those of its types, nothing is refused where it is read: the walk begins with
/// ranges of the shapes of their kinds and keeps them, and in such ranges each name, each literal and each item has its range.
pub fn reading_refuses_nothing()
    ensures { NothingIsRefusedAtReading }
{}

/// In the walk of a well-typed plan no range of a variable gets empty: it begins with ranges that aren't, and each test and
/// each list of statements leaves such ranges.
pub fn no_range_gets_empty()
    ensures { NoRangeGetsEmpty }
{}

/// Where the literals of a well-typed plan are numbers of their types and its inputs have limits, its walk refuses nothing
/// where it is read, at whatever place it comes, and behind each test that it passes it goes on.
pub fn walks_read_all()
    ensures { WalksReadAll }
{}

/// In the walk of a well-typed plan none of whose methods begins a chain of more than 64 nothing is refused outright, whatever
/// the ranges: each operation and each comparison takes some ranges of its operands, what chooses is a test, each method is
/// there and within the chains that are walked, and where branches meet they have the same variables.
pub fn nothing_is_refused_outright()
    ensures { NothingIsRefusedOutright }
{}

/// Where moreover its literals are numbers of their types and its inputs have limits, each refusal of the walk is that of a row, at
/// the place and for the cause that it names, in the ranges with which the walk comes there; or an output is beyond its bound.
pub fn refusals_are_rows()
    ensures { RefusalsAreRows }
{}
