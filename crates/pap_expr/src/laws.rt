//! The laws of the expression language: what its definitions say of every text. The functions do nothing; their
//! contracts are the laws.

ghost use Rattle.std.specs.Prelude.{◌≡◌, ℕ, ◌⊎◌, List};
ghost use Rattle.pap_tree.specs.Term.{Term};
ghost use Rattle.pap_tree.specs.Spelling.{spelling};
ghost use Rattle.pap_tree.specs.Grammar.{Line, Level, LineMeaning, tree};
ghost use Rattle.pap_tree.specs.Stopping.{Cause, deep};
ghost use Rattle.pap_tree.specs.Expressions.{IsText, IsTest, IsAccepted, IsWrong};
ghost use Rattle.expr_grammar.specs.Lines.{IsWholeLine};
ghost use Rattle.expr_grammar.specs.ReadingBack.{IsInText};

use expr_grammar::{reads_fronts, spelling_is_a_text};

/// A text of a test, of an assignment or of a declared literal stands for one thing at most.
pub fn each_text_has_one_tree()
    ensures { (l : Line) → IsWholeLine l → (bytes : List ℕ) (x y : LineMeaning)
        → IsText l bytes x → IsText l bytes y → x ≡ y }
{}

/// Each text is accepted or wrong, never both, and wrong for one cause at one byte.
pub fn each_text_has_one_answer()
    ensures always { (l : Line) → IsWholeLine l → (bytes : List ℕ)
        → ((x : LineMeaning) × IsAccepted l bytes x)
        ⊎ ((c : Cause) × (at : ℕ) × IsWrong l bytes c at) }
    ensures not_both { (l : Line) → IsWholeLine l
        → (bytes : List ℕ) (x : LineMeaning) (c : Cause) (at : ℕ)
        → IsAccepted l bytes x → IsWrong l bytes c at → ⊥ }
    ensures one_fault { (l : Line) → IsWholeLine l → (bytes : List ℕ) (c d : Cause) (m n : ℕ)
        → IsWrong l bytes c m → IsWrong l bytes d n → (c ≡ d) × (m ≡ n) }
{}

/// The canonical spelling of a tree that stands in some text, as a test, as the right side of an assignment or as a node
/// of these, is a text that is read back to that tree, where it keeps the limits: only the cause `deep` refuses it.
pub fn spellings_are_read_back()
    ensures text { (x : Term) → IsInText x → IsTest (spelling x) x }
    ensures tree { (x y : Term)
        → IsInText x → IsAccepted (Level 0) (spelling x) (tree y) → y ≡ x }
    ensures limits { (x : Term) (c : Cause) (at : ℕ)
        → IsInText x → IsWrong (Level 0) (spelling x) c at → c ≡ deep }
{
    spelling_is_a_text();
    reads_fronts();
}
