//! The words of the language.
ghost use Rattle.std.specs.Prelude.{◌≡◌, Some, None, MatchOption, IsTrue};
ghost use Rattle.pap_tree.specs.Names.{is_name};
ghost use Rattle.expr_grammar.specs.Machine.{method_of, constancy_of, mode_of, the_decimal, the_mode};
ghost use Rattle.pap_expr.specs.private.Views.{method_view, static_view, holder_view};

use pap_tree::{Call, Known, Name};
use scaled_decimal::Mode;

/// What follows a point after an expression.
#[derive(Clone, Copy)]
pub(crate) enum Method {
    /// A method of one argument.
    Applied(Call),
    /// `negate()`
    Negate,
    /// `abs()`
    Abs,
    /// `setScale` of a scale and a rounding mode.
    SetScale,
}

/// What follows `BigDecimal` and a point.
#[derive(Clone, Copy)]
pub(crate) enum Static {
    /// A constant.
    Known(Known),
    /// `valueOf`
    ValueOf,
}

/// The class that a rounding mode's word is taken from.
#[derive(Clone, Copy)]
pub(crate) enum Holder {
    /// `BigDecimal`, whose constants begin with `ROUND_`.
    BigDecimal,
    /// `RoundingMode`
    RoundingMode,
}

/// The method of a word.
pub(crate) fn method_of(word: Name) -> Option<Method>
    ensures method { MatchOption result (method_of word ≡ None)
        (λ m. method_of word ≡ Some (method_view m)) }
    ensures named { IsTrue (is_name word) }
{
    let word = word.bytes();
    if word == b"add".as_slice() {
        Some(Method::Applied(Call::Add))
    } else if word == b"subtract".as_slice() {
        Some(Method::Applied(Call::Subtract))
    } else if word == b"multiply".as_slice() {
        Some(Method::Applied(Call::Multiply))
    } else if word == b"divide".as_slice() {
        Some(Method::Applied(Call::DivideExact))
    } else if word == b"compareTo".as_slice() {
        Some(Method::Applied(Call::CompareTo))
    } else if word == b"min".as_slice() {
        Some(Method::Applied(Call::Min))
    } else if word == b"max".as_slice() {
        Some(Method::Applied(Call::Max))
    } else if word == b"negate".as_slice() {
        Some(Method::Negate)
    } else if word == b"abs".as_slice() {
        Some(Method::Abs)
    } else if word == b"setScale".as_slice() {
        Some(Method::SetScale)
    } else {
        None
    }
}

/// What a word is after `BigDecimal` and a point.
pub(crate) fn static_of(word: Name) -> Option<Static>
    ensures constant { MatchOption result (constancy_of word ≡ None)
        (λ m. constancy_of word ≡ Some (static_view m)) }
    ensures named { IsTrue (is_name word) }
{
    match word.bytes() {
        b"ZERO" => Some(Static::Known(Known::Zero)),
        b"ONE" => Some(Static::Known(Known::One)),
        b"TEN" => Some(Static::Known(Known::Ten)),
        b"valueOf" => Some(Static::ValueOf),
        _ => None,
    }
}

/// The rounding mode of a word.
pub(crate) fn mode_of(holder: Holder, word: Name) -> Option<Mode>
    ensures mode { MatchOption result (mode_of (holder_view holder) word ≡ None)
        (λ m. mode_of (holder_view holder) word ≡ Some m) }
    ensures named { IsTrue (is_name word) }
{
    match holder {
        Holder::BigDecimal => old_mode(word.bytes()),
        Holder::RoundingMode => new_mode(word.bytes()),
    }
}

/// The mode of a constant of `BigDecimal`.
fn old_mode(word: &[u8]) -> Option<Mode>
    ensures { MatchOption result (mode_of the_decimal word.now ≡ None)
        (λ m. mode_of the_decimal word.now ≡ Some m) }
{
    let Some(rest) = word.strip_prefix(b"ROUND_") else {
        return None;
    };
    new_mode(rest)
}

/// The mode of a constant of `RoundingMode`.
fn new_mode(word: &[u8]) -> Option<Mode>
    ensures { MatchOption result (mode_of the_mode word.now ≡ None)
        (λ m. mode_of the_mode word.now ≡ Some m) }
{
    if word == b"DOWN".as_slice() {
        Some(Mode::Down)
    } else if word == b"UP".as_slice() {
        Some(Mode::Up)
    } else if word == b"FLOOR".as_slice() {
        Some(Mode::Floor)
    } else if word == b"CEILING".as_slice() {
        Some(Mode::Ceiling)
    } else if word == b"HALF_UP".as_slice() {
        Some(Mode::HalfUp)
    } else if word == b"HALF_DOWN".as_slice() {
        Some(Mode::HalfDown)
    } else if word == b"HALF_EVEN".as_slice() {
        Some(Mode::HalfEven)
    } else {
        None
    }
}
