//! A place in a text that moves forward, with its line.
ghost use Rattle.std.specs.Prelude.{◌≡◌, ◌≤◌, length};
ghost use Rattle.plain_words.specs.Positions.{line_of};
ghost use Rattle.source_lines.specs.private.LineViews.{IsSpot};

/// A byte of a text, counted from 0, and its line, counted from 1.
#[derive(Clone, Copy)]
pub(crate) struct Spot {
    pub at: usize,
    pub line: usize,
}

/// The first byte of a text.
pub(crate) fn first_spot(text: &[u8]) -> Spot
    ensures spot { IsSpot text.now result }
    ensures first { result.at ≡ 0 }
{
    let _ = text;
    Spot { at: 0, line: 1 }
}

/// The spot of a byte, which is found from that of a byte before it; where that stands behind it, from the text's first. A byte
/// beyond the end has the line of the end.
#[tactic(auto, using(crate::proofs::LineLemmas::beyond_end))]
pub(crate) fn spot_of(text: &[u8], before: Spot, at: usize) -> Spot
    requires { IsSpot text.now before }
    ensures spot { IsSpot text.now result }
    ensures line { result.line ≡ line_of text.now at }
{
    let end = at.min(text.len());
    let line = if before.at <= end {
        line_behind(text, before, end)
    } else {
        line_behind(text, first_spot(text), end)
    };
    Spot { at: end, line }
}

/// The line of a byte that doesn't stand before a spot.
#[tactic(auto, using(crate::proofs::LineLemmas::line_more, crate::proofs::LineLemmas::line_same, crate::proofs::LineLemmas::few_lines))]
fn line_behind(text: &[u8], before: Spot, end: usize) -> usize
    requires spot { IsSpot text.now before }
    requires order { before.at ≤ end }
    requires within { end ≤ length text.now }
    ensures { result ≡ line_of text.now end }
{
    let mut line = before.line;
    for at in before.at..end {
        if text[at] == b'\n' {
            line += 1;
        }
    }
    line
}
