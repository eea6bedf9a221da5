//! Tips in the text about a wrong command line.
//!
//! `clap` can't know what is meant by a file without a command, or by `render --json`. For an unknown option,
//! it suggests how to pass it as a file, which is wrong where a file is given already.

use clap::error::ErrorKind;
use std::alloc::{AllocError, Global};

/// What the words of a wrong command line probably mean.
#[derive(Clone, Copy)]
enum Meant<'a> {
    /// A file is to be rendered.
    Render(&'a str),
    /// The tree is to be printed as JSON.
    Json,
    /// An option is for a command, which comes before it.
    CommandFirst,
}

/// What the words probably mean, by the kind of the mistake in them.
fn meaning(kind: ErrorKind, words: &[String]) -> Option<Meant<'_>> {
    let first = words.get(1)?.as_str();
    match kind {
        ErrorKind::InvalidSubcommand if first.contains('.') || first.contains('/') => {
            Some(Meant::Render(first))
        }
        ErrorKind::UnknownArgument if first.starts_with('-') => Some(Meant::CommandFirst),
        ErrorKind::UnknownArgument if first == "render" || first == "rewrite" => {
            let is_json = words.iter().any(|word| word.as_str() == "--json");
            if is_json { Some(Meant::Json) } else { None }
        }
        _ => None,
    }
}

/// Appends the tip for what is meant.
fn push_tip(text: &mut String, meant: Meant<'_>) -> Result<(), AllocError> {
    match meant {
        Meant::Render(file) => {
            text.push_str("\n\n  tip: to render a file, use 'cmk render ")?;
            text.push_str(file)?;
            text.push_str("'")
        }
        Meant::Json => text.push_str("\n\n  tip: to print the tree as JSON, use 'cmk tree --json'"),
        Meant::CommandFirst => text.push_str(
            "\n\n  tip: the command comes first, as in 'cmk render'",
        ),
    }
}

/// The text about a mistake of this kind, with a tip that fits `cmk` in place of `clap`'s own, unless that
/// names a similar word.
pub(crate) fn with_tip(
    alloc: Global,
    text: &str,
    kind: ErrorKind,
    words: &[String],
) -> Result<String, AllocError> {
    let Some((mistake, usage)) = text.split_once("\n\nUsage: ") else {
        return String::from_str(alloc, text);
    };
    let (message, tip) = mistake.split_once("\n\n").unwrap_or((mistake, ""));
    let mut out = String::from_str(alloc, message)?;
    if let Some(meant) = meaning(kind, words) {
        push_tip(&mut out, meant)?;
    } else if tip.contains("similar") {
        out.push_str("\n\n")?;
        out.push_str(tip)?;
    }
    out.push_str("\n\nUsage: ")?;
    out.push_str(usage)?;
    Ok(out)
}
