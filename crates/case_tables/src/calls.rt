//! Tables with a call on each line, for the libraries below `cm_tool`.

mod answer;
mod of_block;
mod of_device;
mod of_inline;
mod of_scan;
mod of_text;
mod of_tree;

use crate::trouble::Trouble;
use crate::words::Word;
pub use answer::Answer;

/// Runs the call, if it is one of these libraries. Returns whether it is.
pub fn answers(answer: &mut Answer, name: &str, given: &[Word]) -> Result<bool, Trouble> {
    Ok(
        of_text::answers(answer, name, given)?
            || of_scan::answers(answer, name, given)?
            || of_tree::answers(answer, name, given)?
            || of_block::answers(answer, name, given)?
            || of_inline::answers(answer, name, given)?
            || of_device::answers(answer, name, given)?,
    )
}
