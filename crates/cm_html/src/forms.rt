//! Texts in the form in which they are written. Each is made once, however often it is in the output, and
//! before any of it is written.
//!
//! So writing takes no memory, and the length of the output is known before its first byte.
ghost use Rattle.std.specs.Prelude.{◌≡◌, ◌++◌, string_bytes, IfOk, OnOk};
ghost use Rattle.cm_html.specs.Forms.{formed};
ghost use Rattle.cm_html.specs.steps.FormedTexts.{number_of};

use crate::escape::{push_destination, push_escaped};
use crate::json_strings::push_json_escaped;
use crate::quoting::push_quoted;
use cm_tree::{BoxedText, Text};
use std::alloc::{AllocError, Global};
use std::collections::BTreeMap;
use std::marker::Model;

/// How a text of the tree is written.
#[derive(Clone, Copy, Debug, PartialEq, Eq)]
pub enum Form {
    /// As a destination in an attribute of HTML.
    Destination,
    /// As any other text in HTML, also in an attribute.
    Escaped,
    /// Between quotes in a listing.
    Quoted,
    /// In a string of JSON, without its quotes.
    Json,
}

/// The formed texts of a writing: what is there under a form and a text is that text in that form.
#[derive(Drop)]
pub(crate) struct FormedTexts {
    alloc: Global,
    /// By the number of the form first.
    texts: BTreeMap<(u8, BoxedText), BoxedText>,
}

impl Model for FormedTexts {
    ghost use Rattle.std.specs.Prelude.{ℕ, List};
    ghost use Rattle.cm_html.specs.steps.FormedTexts.{AreFormed};

    ghost Value = { List ((ℕ × List ℕ) × List ℕ) };

    ghost view = { λ a. a.texts.entries };

    ghost invariant = { λ a. AreFormed a.texts.entries };
}

impl FormedTexts {
    /// No texts. It takes no memory.
    pub(crate) fn new(alloc: Global) -> FormedTexts {
        FormedTexts {
            alloc,
            texts: BTreeMap::new(alloc),
        }
    }

    /// The text in this form, made unless it is there.
    pub(crate) fn form(&mut self, form: Form, text: &BoxedText) -> Result<BoxedText, AllocError>
        ensures { IfOk result (λ made. made ≡ formed form text.now) }
    {
        let key = (number_of(form), text.clone()?);
        if let Some(there) = self.texts.get(&key) {
            return there.clone();
        }
        let made = form_anew(self.alloc, form, text.as_str())?;
        self.texts.insert(key, made.clone()?)?;
        Ok(made)
    }
}

fn number_of(form: Form) -> u8
    ensures { result ≡ number_of form }
{
    match form {
        Form::Destination => 0,
        Form::Escaped => 1,
        Form::Quoted => 2,
        Form::Json => 3,
    }
}

fn form_anew(alloc: Global, form: Form, text: &str) -> Result<BoxedText, AllocError>
    ensures { IfOk result (λ made. made ≡ formed form text.now) }
{
    let mut made = String::with_capacity(alloc, text.len())?;
    push_in_form(&mut made, form, text)?;
    BoxedText::new(alloc, Text::from(made))
}

/// Adds a text in this form.
#[inline(always)]
pub(crate) fn push_in_form(out: &mut String, form: Form, text: &str) -> Result<(), AllocError>
    ensures { OnOk result (string_bytes out.new ≡ string_bytes out.old ++ formed form text.now) }
{
    match form {
        Form::Destination => push_destination(out, text),
        Form::Escaped => push_escaped(out, text),
        Form::Quoted => push_quoted(out, text),
        Form::Json => push_json_escaped(out, text),
    }
}
