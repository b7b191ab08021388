//! Messages on their way out, in one of their forms.
ghost use Rattle.std.specs.Prelude.{◌≡◌, ◌<◌, ◌≤◌, ◌+◌, length, None, IfOk, IfSome, OnOk};
ghost use Rattle.outside.specs.Causes.{HasCause};
ghost use Rattle.outside.specs.Told.{WriteAppends};
ghost use Rattle.messages.specs.Fields.{file_names};
ghost use Rattle.messages.specs.Objects.{AreObjects};
ghost use Rattle.messages.specs.Adapters.{message_faults, message_files, message_form, sink_below, PutsObjects};

use crate::answer_sink::LastRefusal;
use crate::form::MessageForm;
use crate::objects::{Refusal, objects_of, push_object};
use outside::{Failed, Sink, put_all};
use std::alloc::{AllocError, Global};
use std::str;

/// A sink of messages: lines of words come in, and go out in the form that is asked for.
#[derive(Drop)]
pub struct MessageSink<'a, S: Sink + Drop> {
    inner: S,
    form: MessageForm,
    alloc: Global,
    files: &'a [String],
    last: &'a LastRefusal,
    lost: u64,
}

impl<'a, S: Sink + Drop> MessageSink<'a, S> {
    /// What goes to this sink in this form. It is untouched. The words that may name a file are those of the command; the first message
    /// behind a refusal has its code.
    pub fn new(
        inner: S,
        form: MessageForm,
        alloc: Global,
        files: &'a [String],
        last: &'a LastRefusal,
    ) -> Self
        ensures sink { sink_below result ≡ inner }
        ensures form { message_form result ≡ form }
        ensures files { message_files result ≡ file_names files.now }
    {
        MessageSink {
            inner,
            form,
            alloc,
            files,
            last,
            lost: 0,
        }
    }

    /// Writes a text of several lines as one message. That this may fail changes nothing.
    pub fn tell(&mut self, text: &str) {
        let _ = match self.form {
            MessageForm::Words => self.tell_words(text),
            MessageForm::Json => self.tell_object(text),
        };
    }

    /// Writes a text and a line end.
    fn tell_words(&mut self, text: &str) -> Result<(), Failed> {
        put_all(&mut self.inner, text.as_bytes())?;
        put_all(&mut self.inner, b"\n")
    }

    /// Writes a text as one object. Where memory is lacking nothing is written.
    fn tell_object(&mut self, text: &str) -> Result<(), Failed> {
        let mut object = Vec::new(self.alloc);
        match push_object(&mut object, self.files, Refusal::none(), text) {
            Ok(()) => put_all(&mut self.inner, &object),
            Err(_) => Err(Failed),
        }
    }

    /// The objects of some lines, the first with the code of the last refusal.
    fn objects(&self, lines: &[u8]) -> Result<Vec<u8>, AllocError>
        ensures { IfOk result (λ objects. AreObjects (message_files self.now)
            lines.now objects.items) }
    {
        let Ok(text) = str::from_utf8(lines) else {
            return Err(AllocError);
        };
        let answer = self.last.take();
        let refusal = match str::from_utf8(&answer) {
            Ok(answer) => Refusal::of(answer),
            Err(_) => Refusal::none(),
        };
        objects_of(self.alloc, self.files, refusal, text)
    }

    /// Puts lines as objects. A fault is counted where memory is lacking, or the lines aren't UTF-8.
    fn put_objects(&mut self, lines: &[u8]) -> Result<(), Failed>
        ensures form { message_form self.new ≡ message_form self.old }
        ensures files { message_files self.new ≡ message_files self.old }
        ensures cause { HasCause (message_faults S.Sink self.old)
            (message_faults S.Sink self.new) result }
        ensures objects { OnOk result (PutsObjects (message_files self.old) lines.now
            (S.written (sink_below self.old)) (S.written (sink_below self.new))) }
    {
        match self.objects(lines) {
            Ok(objects) => put_all(&mut self.inner, &objects),
            Err(_) => {
                self.lost = self.lost.saturating_add(1);
                Err(Failed)
            }
        }
    }
}

impl<S: Sink + Drop> Sink for MessageSink<'_, S> {
    ghost faults = { λ s. message_faults S.Sink s };

    ghost written = { λ _. None };

    fn put(&mut self, piece: &[u8]) -> Result<usize, Failed>
        requires { 0 < length piece.now }
        ensures some { IfOk result (λ count. 0 < count) }
        ensures short { IfOk result (λ count. count ≤ length piece.now) }
        ensures cause { HasCause (message_faults S.Sink self.old)
            (message_faults S.Sink self.new) result }

        // As words a piece goes out as it is, as JSON in whole objects.
        ensures form { message_form self.new ≡ message_form self.old }
        ensures files { message_files self.new ≡ message_files self.old }
        ensures words { message_form self.old ≡ MessageForm.Words → WriteAppends
            (S.written (sink_below self.old)) (S.written (sink_below self.new)) result piece.now }
        ensures objects { message_form self.old ≡ MessageForm.Json → OnOk result
            (PutsObjects (message_files self.old) piece.now
            (S.written (sink_below self.old)) (S.written (sink_below self.new))) }
    {
        match self.form {
            MessageForm::Words => self.inner.put(piece),
            MessageForm::Json => {
                self.put_objects(piece)?;
                Ok(piece.len())
            }
        }
    }
}
