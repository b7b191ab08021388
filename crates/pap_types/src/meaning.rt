//! The laws: what the definitions say of every plan. The functions do nothing; their contracts are the laws.

ghost use Rattle.std.specs.Prelude.{◌↔◌, List};
ghost use Rattle.scaled_decimal.specs.Decimals.{Decimal};
ghost use Rattle.pap_tree.specs.Term.{Term};
ghost use Rattle.pap_tree.specs.Flowchart.{Flowchart};
ghost use Rattle.pap_types.specs.Checks.{IsWellTyped};
ghost use Rattle.pap_types.specs.Typing.{HasTypes};
ghost use Rattle.pap_types.specs.Meaning.{IsSafeFor};
ghost use Rattle.pap_types.specs.MeaningLaws.{HasOneOutputs, OutputsStandByName, CostsAtMostBound, IsBoundedByNodes};

/// A plan is well typed exactly where no two declared names, and no two methods, are the same; each literal is of its type;
/// and in each statement names are declared, operations take their operands, the target suits the value, and the executed
/// method is there.
pub fn typed_parts()
    ensures { (f : Flowchart) → IsWellTyped f ↔ HasTypes f }
{}

/// Inputs that are safe for a plan have exactly one list of outputs, with a value for each declared output; in a well-typed
/// plan that is what stands under the output's name where the run ends.
pub fn one_outputs()
    ensures one { (f : Flowchart) (inputs : List Decimal)
        → IsSafeFor f inputs → HasOneOutputs f inputs }
    ensures named { (f : Flowchart) → IsWellTyped f → OutputsStandByName f }
{}

/// On every list of inputs a run costs at most the bound, also where it is undefined; and the bound of an expression is
/// at most two steps for each of its nodes.
pub fn bounded()
    ensures runs { (f : Flowchart) → CostsAtMostBound f }
    ensures terms { (e : Term) → IsBoundedByNodes e }
{}
