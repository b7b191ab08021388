//! An entry of a range file.
ghost use Rattle.std.specs.Prelude.{◌≡◌};
ghost use Rattle.range_comparison.specs.Changes.{entry_input, is_same_limit, is_same_carry, is_same_entry};

use limits_file::{Binding, Carry, InputLimit};
use pap_tree::Name;

/// An entry of a range file.
#[derive(Clone, Copy)]
pub enum RangeEntry {
    /// `[input.NAME]`: the range of an input.
    Input(InputLimit),
    /// `[bind.NAME]`: what an input carries over from earlier runs.
    Bind(Binding),
}

impl RangeEntry {
    /// The input.
    pub fn input(&self) -> &Name
        ensures { result.now ≡ entry_input self.now }
    {
        match self {
            RangeEntry::Input(limit) => &limit.name,
            RangeEntry::Bind(binding) => &binding.input,
        }
    }

    /// The bytes of its name.
    pub(crate) fn name_bytes(&self) -> &[u8]
        ensures { result.now ≡ entry_input self.now }
    {
        self.input().bytes()
    }

    /// Whether both are of the same table and say the same, but for the input.
    pub(crate) fn is_same(&self, other: &RangeEntry) -> bool
        ensures { result ≡ is_same_entry self.now other.now }
    {
        match (self, other) {
            (RangeEntry::Input(a), RangeEntry::Input(b)) => is_same_limit(a, b),
            (RangeEntry::Bind(a), RangeEntry::Bind(b)) => is_same_carry(&a.carry, &b.carry),
            _ => false,
        }
    }
}

/// Whether the bounds of both are of the same values, with as many places.
fn is_same_limit(a: &InputLimit, b: &InputLimit) -> bool
    ensures { result ≡ is_same_limit a.now b.now }
{
    a.low.compare(b.low).is_eq() && a.high.compare(b.high).is_eq() && a.places == b.places
}

/// Whether both carry over the same.
fn is_same_carry(a: &Carry, b: &Carry) -> bool
    ensures { result ≡ is_same_carry a.now b.now }
{
    match (a, b) {
        (Carry::Sum(a), Carry::Sum(b)) => a.bytes() == b.bytes(),
        (Carry::Last(a), Carry::Last(b)) => a.bytes() == b.bytes(),
        (Carry::Count, Carry::Count) => true,
        _ => false,
    }
}
