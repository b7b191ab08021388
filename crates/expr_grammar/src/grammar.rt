//! The laws: what the definitions of `pap_tree` say of every list of tokens. The functions do nothing; their contracts
//! are the laws.

ghost use Rattle.pap_tree.specs.Grammar.{Line};
ghost use Rattle.expr_grammar.specs.Lines.{IsWholeLine};
ghost use Rattle.expr_grammar.specs.GrammarLaws.{HasOneMeaning, TakesOrRefuses, HasOneRefusal, HasAnswer, ReadsFronts, CountsLevels, BeginsFronts, BeginsTexts, GivesMeaning, GivesRefusal, IsSized, BoundsNodes, KeepsPlaces, KeepsPlacesOfBytes, SpellsItself};

/// A text of a test, of an assignment or of a declared literal stands for one thing at most.
pub fn one_tree()
    ensures { (l : Line) → IsWholeLine l → HasOneMeaning l }
{}

/// No tokens are both taken and refused.
pub fn tree_or_fault()
    ensures { (l : Line) → IsWholeLine l → TakesOrRefuses l }
{}

/// Tokens are refused for one cause and at one place at most.
pub fn one_fault()
    ensures { (l : Line) → IsWholeLine l → HasOneRefusal l }
{}

/// All tokens are taken or refused.
pub fn always_one()
    ensures { (l : Line) → IsWholeLine l → HasAnswer l }
{}

/// The machine reads exactly the prefixes of a line, and has the most levels open that the prefix can have. Each beginning of
/// a prefix, or of a text, is a prefix.
pub fn reads_fronts()
    ensures fronts { (l : Line) → IsWholeLine l → ReadsFronts l }
    ensures levels { (l : Line) → IsWholeLine l → CountsLevels l }
    ensures of_fronts { (l : Line) → IsWholeLine l → BeginsFronts l }
    ensures of_texts { (l : Line) → IsWholeLine l → BeginsTexts l }
{}

/// The machine answers what a line's tokens stand for, or why they are refused and where, and nothing else.
pub fn decides()
    ensures meaning { (l : Line) → IsWholeLine l → GivesMeaning l }
    ensures refusal { (l : Line) → IsWholeLine l → GivesRefusal l }
{}

/// A tree has no more nodes than its text has tokens, and at most 1,000 where the line has limits and keeps them.
pub fn sized()
    ensures tokens { (l : Line) → IsSized l }
    ensures limit { (l : Line) → BoundsNodes l }
{}

/// Each scale of a tree is at most 30, and each literal with a point has at least one place.
pub fn keeps_places()
    ensures tokens { (l : Line) → KeepsPlaces l }
    ensures bytes { (l : Line) → KeepsPlacesOfBytes l }
{}

/// The tokens of the canonical spelling of a tree that some text has are a text of that tree.
pub fn spells()
    ensures { SpellsItself }
{}
