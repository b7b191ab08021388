//! Answers on their way out, of which the last refusal is kept.
ghost use Rattle.std.specs.Prelude.{◌≡◌, ◌<◌, ◌≤◌, ◌↔◌, ◌++◌, IfOk, IsTrue, codes, length};
ghost use Rattle.outside.specs.Causes.{HasCause};
ghost use Rattle.outside.specs.Told.{WriteAppends};
ghost use Rattle.messages.specs.Adapters.{answers_below, keeps_refusals};

use crate::form::MessageForm;
use outside::{Failed, Sink};
use std::alloc::Global;
use std::cell::RefCell;

/// The last answer, where it is a refusal that no message has taken yet.
#[derive(Drop)]
pub struct LastRefusal {
    alloc: Global,
    text: RefCell<Vec<u8>>,
}

impl LastRefusal {
    /// Before the first answer.
    pub fn new(alloc: Global) -> LastRefusal {
        LastRefusal {
            alloc,
            text: RefCell::new(Vec::new(alloc)),
        }
    }

    /// Keeps the line of an answer that is a refusal. Where memory is lacking nothing is kept.
    fn keep(&self, answer: &[u8]) {
        let mut line = Vec::new(self.alloc);
        if answer.starts_with(b"refused ") && line.extend_from_slice(first_line(answer)).is_err() {
            line.clear();
        }
        let _ = self.text.try_replace(line);
    }

    /// Whether the last answer is a refusal of this group and name alone, as `book Filed`, and wasn't taken before.
    pub fn is_of(&self, code: &str) -> bool {
        let answer = self.take();
        let is_so = is_refusal(&answer, code);
        let _ = self.text.try_replace(answer);
        is_so
    }

    /// The last answer, where it is a refusal and wasn't taken before; else nothing.
    pub(crate) fn take(&self) -> Vec<u8> {
        match self.text.try_replace(Vec::new(self.alloc)) {
            Ok(text) => text,
            Err(_) => Vec::new(self.alloc),
        }
    }
}

/// Whether an answer is a refusal of this group and name alone.
fn is_refusal(answer: &[u8], code: &str) -> bool
    ensures { IsTrue result ↔ (answer.now ≡ codes "refused " ++ code.now) }
{
    match answer.strip_prefix(b"refused ") {
        Some(refused) => refused == code.as_bytes(),
        None => false,
    }
}

/// The first line of some text, without its line end.
fn first_line(text: &[u8]) -> &[u8] {
    match text.iter().position(|byte| *byte == b'\n') {
        Some(end) => &text[..end],
        None => text,
    }
}

/// A sink of answers, of which the last refusal is kept for the next message.
#[derive(Drop)]
pub struct AnswerSink<'a, S: Sink + Drop> {
    inner: S,
    keeps: bool,
    last: &'a LastRefusal,
}

impl<'a, S: Sink + Drop> AnswerSink<'a, S> {
    /// What goes to this sink. It is untouched. A refusal is kept only where messages are written as JSON.
    pub fn new(inner: S, form: MessageForm, last: &'a LastRefusal) -> Self
        ensures sink { answers_below result ≡ inner }
        ensures keeps { IsTrue (keeps_refusals result) ↔ (form ≡ MessageForm.Json) }
    {
        AnswerSink {
            inner,
            keeps: form == MessageForm::Json,
            last,
        }
    }

    /// What goes to this sink, of which the last refusal is kept in any form. It is untouched.
    pub fn keeping(inner: S, last: &'a LastRefusal) -> Self
        ensures sink { answers_below result ≡ inner }
        ensures keeps { IsTrue (keeps_refusals result) }
    {
        AnswerSink {
            inner,
            keeps: true,
            last,
        }
    }

    /// The sink below.
    pub fn inner(&self) -> &S
        ensures { result.now ≡ answers_below self.now }
    {
        &self.inner
    }
}

impl<S: Sink + Drop> Sink for AnswerSink<'_, S> {
    ghost faults = { λ s. S.faults (answers_below s) };

    ghost written = { λ s. S.written (answers_below s) };

    fn put(&mut self, piece: &[u8]) -> Result<usize, Failed>
        requires { 0 < length piece.now }
        ensures some { IfOk result (λ count. 0 < count) }
        ensures short { IfOk result (λ count. count ≤ length piece.now) }
        ensures bytes { WriteAppends (S.written (answers_below self.old))
            (S.written (answers_below self.new)) result piece.now }
        ensures cause { HasCause (S.faults (answers_below self.old))
            (S.faults (answers_below self.new)) result }

        // It goes on keeping refusals, or not.
        ensures keeps { keeps_refusals self.new ≡ keeps_refusals self.old }
    {
        if self.keeps {
            self.last.keep(piece);
        }
        self.inner.put(piece)
    }
}
