//! Lines of words as objects of JSON, one a line.
ghost use Rattle.std.specs.Prelude.{◌≡◌, IfOk, OnOk};
ghost use Rattle.messages.specs.Fields.{file_names};
ghost use Rattle.messages.specs.Objects.{AreObjects};
ghost use Rattle.messages.specs.private.ObjectViews.{PutsLines, PutsObject};

use crate::cut::{behind, cut};
use crate::json::push_json;
use crate::message::Message;
use crate::reading::message_of;
use std::alloc::{AllocError, Global};

/// What an answer says of a refusal: its group and its name, and the node of the flowchart, where it has one.
#[derive(Clone, Copy)]
pub(crate) struct Refusal<'a> {
    pub code: Option<&'a str>,
    pub place: Option<&'a str>,
}

impl<'a> Refusal<'a> {
    /// No refusal was answered.
    pub(crate) fn none() -> Refusal<'a>
        ensures code { result.code ≡ None }
        ensures place { result.place ≡ None }
    {
        Refusal {
            code: None,
            place: None,
        }
    }

    /// The refusal of an answer `refused GROUP NAME DETAIL`.
    pub(crate) fn of(answer: &'a str) -> Refusal<'a> {
        let Some(cause) = behind(answer, "refused ") else {
            return Refusal::none();
        };
        let mut words = cause.split(' ');
        let (Some(group), Some(name)) = (words.next(), words.next()) else {
            return Refusal::none();
        };
        let length = group.len().saturating_add(name.len()).saturating_add(1);
        Refusal {
            code: cause.get(..length),
            place: words
                .next()
                .filter(|word| group == "plan" && word.contains(':')),
        }
    }
}

/// Lines of words as objects, each with its line end. The first has the code and the place of this refusal.
pub(crate) fn objects_of(
    alloc: Global,
    files: &[String],
    refusal: Refusal<'_>,
    text: &str,
) -> Result<Vec<u8>, AllocError>
    ensures { IfOk result (λ objects. AreObjects (file_names files.now) text.now objects.items) }
{
    let mut objects = Vec::new(alloc);
    let Some((line, rest)) = cut(text, "\n") else {
        return Ok(objects);
    };
    push_object(&mut objects, files, refusal, line)?;
    push_objects(&mut objects, files, rest)?;
    Ok(objects)
}

/// Appends lines of words as objects, each with its line end.
fn push_objects(objects: &mut Vec<u8>, files: &[String], text: &str) -> Result<(), AllocError>
    ensures { OnOk result (PutsLines (file_names files.now)
        text.now objects.old.items objects.new.items) }
{
    let mut rest = text;
    while let Some((line, next)) = cut(rest, "\n") {
        push_object(objects, files, Refusal::none(), line)?;
        rest = next;
    }
    Ok(())
}

/// Appends a message of these words as an object with its line end.
pub(crate) fn push_object(
    objects: &mut Vec<u8>,
    files: &[String],
    refusal: Refusal<'_>,
    words: &str,
) -> Result<(), AllocError>
    ensures { OnOk result (PutsObject (file_names files.now) refusal.entry
        words.now objects.old.items objects.new.items) }
{
    let message = Message {
        code: refusal.code,
        place: refusal.place,
        ..message_of(words, files)
    };
    push_json(objects, &message)?;
    objects.push(b'\n')?;
    Ok(())
}
