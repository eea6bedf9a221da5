//! What the words of `cmk`'s command line ask for.
//!
//! Start with [`task`], which returns a [`Task`], or a [`Stop`] for help, a mistake or lack of memory.
//! `cm_tool` does what a task asks for.
//!
//! ```
//! use cm_command::{Stop, task};
//! use std::alloc::Global;
//!
//! // The file that the words name, or None for standard input.
//! fn file_of(alloc: Global, words: &[String]) -> Result<Option<String>, Stop> {
//!     Ok(task(alloc, words)?.file)
//! }
//! ```
#![tactic(auto)]

mod command_line;
mod job;
pub mod laws;
mod tips;

pub use command_line::task;
pub use job::{Job, Stop, Task};
