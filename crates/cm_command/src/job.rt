//! Tasks, and what is returned without one: help, a mistake in the words, or lack of memory.

use cm_text::Limits;
use std::alloc::AllocError;

/// What is done with a text.
#[derive(Clone, Copy, Debug, PartialEq, Eq, Drop)]
pub enum Job {
    /// The text is written as HTML.
    Render,
    /// The tree of the text is listed, and the owner of each line.
    Tree,
    /// The tree of the text and the lines of its leaves are written as JSON.
    TreeJson,
    /// The text is written as plain source of its tree.
    Rewrite,
    /// The text is a file of examples, and the report on it is written.
    Examples,
}

/// A job, and the file that it is done with.
#[derive(Debug, PartialEq, Eq, Drop)]
pub struct Task {
    pub job: Job,
    /// The file to read; `None` for standard input: the words have no file, or `-`.
    pub file: Option<String>,
    pub limits: Limits,
}

/// Why the words of a command line give no task.
#[derive(Debug, PartialEq, Eq, Drop)]
pub enum Stop {
    /// Help or the version was asked for, and this is its text.
    Help(String),
    /// The words aren't a command line of the program, as the text says.
    Wrong(String),
    /// A request for memory was refused.
    NoMemory,
}

impl From<AllocError> for Stop {
    ghost use Rattle.std.specs.Prelude.{◌≡◌};
    ghost use Rattle.cm_command.specs.declared.job.Stop.TheVariants.{NoMemory};

    ghost from_gives = { λ _ e. e ≡ NoMemory };

    fn from(_error: AllocError) -> Stop {
        Stop::NoMemory
    }
}
