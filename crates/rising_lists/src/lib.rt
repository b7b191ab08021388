//! Lists whose keys rise strictly, as what a book, a calendar and a record's values are seen: definitions and their laws.
#![tactic(auto)]

ghost use Rattle.rising_lists.specs.Edits.{PutsOne, TakesOne};

/// The laws of an edit at a key, for every total order of the keys: it changes what stands at that key and nothing else.
pub fn edits_change_one_key<K: Ord, X>()
    ensures put { (key : X → K) → PutsOne K.cmp key }
    ensures without { (key : X → K) → TakesOne K.cmp key }
{}
