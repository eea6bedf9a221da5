//! CommonMark for C: a text to HTML, to the listing of its tree, to its tree as JSON, or to plain source.
//!
//! A call takes the text as a pointer and a length, and has no state of its own. `include/cmk.h` declares the
//! calls for C. Start with [`cmk_html`]; `examples/render.c` is a whole program, which the gate compiles and
//! runs.
//!
//! ```c
//! cmk_options options = CMK_OPTIONS;
//! cmk_output output = CMK_OUTPUT;
//! if (cmk_html("a & *b*\n", 8, &options, &output) == CMK_DONE) {
//!     fputs(output.bytes, stdout);
//! }
//! cmk_free(&output);
//! ```
#![tactic(auto)]

ghost use Rattle.std.specs.Prelude.{◌≡◌, ◌≤◌, ℕ, List, IfSome};
ghost use Rattle.cm_tool.specs.Faults.{fault_of};
ghost use Rattle.cm_tool.specs.Writing.{IsTreeInJson, converted, in_json, listed};
ghost use Rattle.cm_tool.specs.Rewriting.{rewritten};
ghost use Rattle.cmk_c.specs.Calls.{Answers, Fills, TellsLine, limits_asked, rewriting_fault};
ghost use Rattle.cmk_c.specs.Numbers.{message_of};

mod filling;
pub mod laws;
mod message;
mod numbers;
mod options;
mod output;
mod outputs;

use crate::filling::{fill, fill_nothing};
use crate::message::{fill_line, message_of};
use crate::options::limits_of;
use crate::output::{put, put_wrong_options};
use crate::outputs::{html_of, json_of, source_of, tree_of};
pub use filling::Filled;
pub use message::Message;
pub use options::Options;
pub use output::Output;
use std::alloc::Global;

/// The HTML of the text.
#[unsafe(no_mangle)]
pub extern "C" fn cmk_html(
    alloc: Global,
    text: &[u8],
    options: &Options,
    output: &mut Output,
) -> u32
    ensures { Answers fault_of converted (limits_asked options.now) text.now
        (record {
          number = result;
          place = output.new.place;
          count = output.new.length;
          bytes = output.new.bytes.now;
        }) }
{
    match limits_of(options) {
        Some(limits) => put(html_of(alloc, text, limits), output),
        None => put_wrong_options(output),
    }
}

/// The listing of the tree of the text, and of the owners of its lines.
#[unsafe(no_mangle)]
pub extern "C" fn cmk_tree(
    alloc: Global,
    text: &[u8],
    options: &Options,
    output: &mut Output,
) -> u32
    ensures { Answers fault_of listed (limits_asked options.now) text.now
        (record {
          number = result;
          place = output.new.place;
          count = output.new.length;
          bytes = output.new.bytes.now;
        }) }
{
    match limits_of(options) {
        Some(limits) => put(tree_of(alloc, text, limits), output),
        None => put_wrong_options(output),
    }
}

/// The tree of the text and the lines of its leaves as JSON, without a line feed at its end.
#[unsafe(no_mangle)]
pub extern "C" fn cmk_json(
    alloc: Global,
    text: &[u8],
    options: &Options,
    output: &mut Output,
) -> u32
    ensures answer { Answers fault_of in_json (limits_asked options.now) text.now
        (record {
          number = result;
          place = output.new.place;
          count = output.new.length;
          bytes = output.new.bytes.now;
        }) }
    ensures is_json { result ≡ 0
        → IfSome (limits_asked options.now) (λ limits. IsTreeInJson limits.rules text.now) }
{
    match limits_of(options) {
        Some(limits) => put(json_of(alloc, text, limits), output),
        None => put_wrong_options(output),
    }
}

/// Plain source of the tree of the text without its link reference definitions.
#[unsafe(no_mangle)]
pub extern "C" fn cmk_rewrite(
    alloc: Global,
    text: &[u8],
    options: &Options,
    output: &mut Output,
) -> u32
    ensures { Answers rewriting_fault rewritten (limits_asked options.now) text.now
        (record {
          number = result;
          place = output.new.place;
          count = output.new.length;
          bytes = output.new.bytes.now;
        }) }
{
    match limits_of(options) {
        Some(limits) => put(source_of(alloc, text, limits), output),
        None => put_wrong_options(output),
    }
}

/// Writes the HTML of the text to the caller's room, and sets its length.
#[unsafe(no_mangle)]
pub extern "C" fn cmk_html_into(
    alloc: Global,
    text: &[u8],
    options: &Options,
    room: &mut [u8],
    filled: &mut Filled,
) -> u32
    ensures { Fills fault_of converted (limits_asked options.now) text.now room.old
        (record {
          number = result;
          place = filled.new.place;
          count = filled.new.length;
          bytes = room.new;
        }) }
{
    match limits_of(options) {
        Some(limits) => fill(html_of(alloc, text, limits), room, filled),
        None => fill_nothing(filled),
    }
}

/// Writes the line for the number and the place that a call returned to the caller's room, with its length.
#[unsafe(no_mangle)]
pub extern "C" fn cmk_fault_text(
    number: u32,
    place: usize,
    room: &mut [u8],
    filled: &mut Filled,
) -> u32
    ensures told { TellsLine (message_of number place) room.old
        (record {
          number = result;
          place = filled.new.place;
          count = filled.new.length;
          bytes = room.new;
        }) }
    ensures short { filled.new.length ≤ 126 }
{
    match message_of(number, place) {
        Some(message) => fill_line(message, room, filled),
        None => fill_nothing(filled),
    }
}

/// The version: 65536 times the first number, 256 times the second, and the third.
#[unsafe(no_mangle)]
pub extern "C" fn cmk_version() -> u32
    ensures { result ≡ 256 }
{
    0x0100
}
