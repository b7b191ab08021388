//! Comments of the file beside the spine.
use crate::measures::{
    BOX_SIDE, CODE_CHAR, NOTE_CAPITAL, NOTE_CHAR, NOTE_CHARS_LESS, NOTE_LINE, NOTE_SIDES,
};
use crate::pieces::count_chars;
use crate::px::{Px, tenths};
use std::alloc::{AllocError, Global};

/// Comments, in lines.
#[derive(Drop)]
pub struct Note {
    pub lines: Vec<String>,
}

impl Note {
    /// Appends comments in lines that break at spaces, where the symbols have some room. A longer
    /// word stands alone.
    pub(crate) fn append(
        &mut self,
        alloc: Global,
        comments: &[String],
        room: Px,
    ) -> Result<(), AllocError> {
        let text = room - BOX_SIDE - BOX_SIDE;
        let chars = (text.tenths() / CODE_CHAR).saturating_sub(NOTE_CHARS_LESS);
        for comment in comments {
            append_lines(alloc, &mut self.lines, comment, chars as usize)?;
        }
        Ok(())
    }

    /// The height of its lines.
    pub fn height(&self) -> Px {
        NOTE_LINE.times(self.lines.len())
    }

    /// How much room it takes beside the spine.
    pub(crate) fn width(&self) -> Px {
        let mut widest = 0;
        for line in &self.lines {
            widest = line_tenths(line.as_bytes()).max(widest);
        }
        Px::of_tenths(widest) + NOTE_SIDES
    }
}

/// How wide a line of a comment is, in tenths of a px.
fn line_tenths(line: &[u8]) -> u32 {
    let capitals = line.iter().filter(|byte| byte.is_ascii_uppercase()).count();
    let others = count_chars(line).saturating_sub(capitals);
    tenths(capitals, NOTE_CAPITAL).saturating_add(tenths(others, NOTE_CHAR))
}

/// Appends the lines of a comment.
fn append_lines(
    alloc: Global,
    lines: &mut Vec<String>,
    comment: &str,
    room: usize,
) -> Result<(), AllocError> {
    lines.push(String::new(alloc))?;
    let mut chars: usize = 0;
    for word in comment.split(' ') {
        let length = count_chars(word.as_bytes());
        let longer = chars.saturating_add(length).saturating_add(1);
        if chars == 0 {
            append_word(lines, "", word)?;
            chars = length;
        } else if longer > room {
            lines.push(String::from_str(alloc, word)?)?;
            chars = length;
        } else {
            append_word(lines, " ", word)?;
            chars = longer;
        }
    }
    Ok(())
}

/// Appends a word to the last line, behind a space or nothing.
fn append_word(lines: &mut Vec<String>, space: &str, word: &str) -> Result<(), AllocError> {
    if let Some(line) = lines.last_mut() {
        line.push_str(space)?;
        line.push_str(word)?;
    }
    Ok(())
}
