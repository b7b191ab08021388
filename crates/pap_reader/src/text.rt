//! Plans from the bytes of their files.

ghost use Rattle.std.specs.Prelude.{◌≡◌, ◌⊎◌, ℕ, List, length, map, IfOk, IfErr};
ghost use Rattle.pap_reader.specs.Contents.{Token as FileToken, AreTokens, AreRead, tags_of, token_byte, StandInOrder};
ghost use Rattle.pap_reader.specs.Trees.{ElementTree, tree_of};
ghost use Rattle.pap_reader.specs.Elements.{IsElementText, IsElements, IsFault, IsFaultOrMemory};
ghost use Rattle.pap_reader.specs.TreeLimits.{IsSmallTree};
ghost use Rattle.pap_reader.specs.declared.fault.ReadFault.{ReadFault as Fault};

use crate::elements::Elements;
use crate::fault::{ReadFault, Which};
use crate::reader::Reader;
use crate::tokens::{Token, Tokens, read_tokens};
use std::alloc::Global;

/// The most bytes of a plan's file.
pub const LONGEST_PLAN: usize = 1_048_576;

/// Reads the elements of a plan's file (docs/PROFILE.md). The refusal is that of the first token that earns one, and of one
/// token the first of `Text`, `Element`, `Attribute` and `Many`; too many bytes are refused before all else.
pub fn read_elements(alloc: Global, bytes: &[u8]) -> Result<Elements, ReadFault>
    // The bytes are an element text within the limits, and this is its tree.
    ensures read { IfOk result (λ e. IsElements bytes.now (tree_of e)) }
    // The bytes have this fault, or memory ran out.
    ensures refused { IfErr result (λ f. IsFaultOrMemory bytes.now f) }
{
    let tokens = read_tokens(alloc, bytes)?;
    elements_of(alloc, bytes, &tokens)
}

/// The same of a file whose tokens are read.
pub fn elements_of(alloc: Global, file: &[u8], tokens: &Tokens<'_>) -> Result<Elements, ReadFault>
    requires { AreRead file.now tokens.now }
    ensures read { IfOk result (λ e. IsElements file.now (tree_of e)) }
    ensures refused { IfErr result (λ f. IsFaultOrMemory file.now f) }
{
    let end = file.len();
    if end > LONGEST_PLAN {
        return Err(ReadFault::Many {
            which: Which::Bytes,
        });
    }
    let mut reader = Reader::new(alloc);
    for token in &tokens.items {
        let Token::Tag { at, tag } = token else {
            continue;
        };
        reader.take(tag, *at)?;
    }
    if !tokens.left.is_empty() {
        return Err(ReadFault::Text {
            at: end.saturating_sub(tokens.left.len()),
        });
    }
    reader.finish(end)
}

/// The laws of element texts: bytes have either one tree within the limits or one fault, and never both; and such a tree
/// has no more declarations, methods, statements and nested IFs than the limits say.
pub fn element_laws()
    ensures one_tree { (bytes : List ℕ) (x y : ElementTree)
        → IsElementText bytes x → IsElementText bytes y → x ≡ y }
    ensures one_fault { (bytes : List ℕ) (f g : Fault) → IsFault bytes f → IsFault bytes g → f ≡ g }
    ensures never_both { (bytes : List ℕ) (x : ElementTree) (f : Fault)
        → IsElements bytes x → IsFault bytes f → ⊥ }
    ensures always_one { (bytes : List ℕ)
        → ((x : ElementTree) × IsElements bytes x) ⊎ ((f : Fault) × IsFault bytes f) }
    ensures small_tree { (bytes : List ℕ) (x : ElementTree) → IsElements bytes x → IsSmallTree x }
{}

/// The laws of a file's tokens: its tags stand at one list of places, with one list of attributes, and its tokens stand in its
/// order, each behind the one before.
pub fn token_laws()
    ensures one_list { (file x y : List ℕ) (ts us : List FileToken)
        → AreTokens file ts x → AreTokens file us y
        → tags_of ts ≡ tags_of us }
    ensures in_order { (file rest : List ℕ) (ts : List FileToken) → AreTokens file ts rest
        → StandInOrder 0 (map token_byte ts) (length file) }
{}
