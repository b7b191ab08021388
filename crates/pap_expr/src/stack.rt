//! The frames that are open.
ghost use Rattle.std.specs.Prelude.{◌≡◌, ◌∷◌, ◌≤◌, List, [], MatchOption, OnOk, IfErr};
ghost use Rattle.pap_tree.specs.Limits.{most_levels};
ghost use Rattle.expr_grammar.specs.Machine.{Frame as Waiting, level};
ghost use Rattle.pap_expr.specs.private.Frames.{frame_of, frames_of, Pops, PopsBinding};
ghost use Rattle.pap_expr.specs.declared.fault.ExprFault.TheVariants.{Memory};

use crate::fault::ExprFault;
use crate::frame::Frame;
use std::alloc::Global;

/// The frames that are open, the innermost last.
#[derive(Drop)]
pub(crate) struct Stack {
    frames: Vec<Frame>,
    /// How many levels they open.
    levels: usize,
    ghost counted: { levels ≡ level (frames_of frames.items) },
}

impl Stack {
    pub(crate) fn new(alloc: Global) -> Stack
        ensures { frames_of result.frames.items ≡ [] }
    {
        Stack {
            frames: Vec::new(alloc),
            levels: 0,
        }
    }

    /// How many levels are open.
    pub(crate) fn levels(&self) -> usize
        ensures { result ≡ level (frames_of self.now.frames.items) }
    {
        self.levels
    }

    /// The frames, the innermost last.
    pub(crate) fn frames(&self) -> &[Frame]
        ensures { result.now ≡ self.now.frames.items }
    {
        &self.frames
    }

    /// The innermost frame.
    pub(crate) fn top(&self) -> Option<&Frame>
        ensures { MatchOption result (frames_of self.now.frames.items ≡ [])
            (λ f. (k : List Waiting) × (frames_of self.now.frames.items ≡ frame_of f.now ∷ k)) }
    {
        self.frames.last()
    }

    pub(crate) fn push(&mut self, frame: Frame) -> Result<(), ExprFault>
        requires room { level (frames_of self.old.frames.items) ≤ most_levels }
        ensures pushed { OnOk result (frames_of self.new.frames.items
            ≡ frame_of frame ∷ frames_of self.old.frames.items) }
        ensures memory { IfErr result (λ e. e ≡ Memory) }
    {
        let levels = self.levels + frame.levels();
        self.frames.push(frame)?;
        self.levels = levels;
        Ok(())
    }

    /// Takes the innermost frame.
    pub(crate) fn pop(&mut self) -> Option<Frame>
        ensures popped { Pops (frames_of self.old.frames.items)
            (frames_of self.new.frames.items) result }
        ensures fewer { level (frames_of self.new.frames.items)
            ≤ level (frames_of self.old.frames.items) }
    {
        let frame = self.frames.pop()?;
        self.levels -= frame.levels();
        Some(frame)
    }

    /// Takes the innermost frame, where it binds at least so tightly.
    pub(crate) fn pop_binding(&mut self, tightness: u8) -> Option<Frame>
        ensures popped { PopsBinding tightness (frames_of self.old.frames.items)
            (frames_of self.new.frames.items) result }
        ensures fewer { level (frames_of self.new.frames.items)
            ≤ level (frames_of self.old.frames.items) }
    {
        let own = self.top()?.binds()?;
        if own < tightness {
            return None;
        }
        self.pop()
    }
}

/// The innermost of some frames.
pub(crate) fn innermost(frames: &[Frame]) -> Option<&Frame>
    ensures { MatchOption result (frames_of frames.now ≡ [])
        (λ f. (k : List Waiting) × (frames_of frames.now ≡ frame_of f.now ∷ k)) }
{
    frames.last()
}
