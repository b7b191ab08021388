//! The law of the canonical spelling. The function does nothing; its contract is the law.

ghost use Rattle.pap_tree.specs.Term.{Term};
ghost use Rattle.pap_tree.specs.Spelling.{spelling};
ghost use Rattle.pap_tree.specs.Expressions.{IsTest};
ghost use Rattle.expr_grammar.specs.ReadingBack.{IsInText};

/// The canonical spelling of a tree that stands in some text, as a test, as the right side of an assignment or as a node
/// of these, is a text of that tree.
pub fn spelling_is_a_text()
    ensures { (x : Term) → IsInText x → IsTest (spelling x) x }
{}
