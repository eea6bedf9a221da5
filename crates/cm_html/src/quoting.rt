//! What the lines of a listing are made of: their indentation, and texts between quotes, with escapes.
ghost use Rattle.std.specs.Prelude.{◌≡◌, ◌==◌, ◌||◌, ◌<◌, ◌^◌, ◌++◌};
ghost use Rattle.std.specs.Prelude.{ℕ, position, IsTrue, string_bytes, OnOk, flat_map};
ghost use Rattle.cm_html.specs.Listing.{margin, quote_byte, quoted};
ghost use Rattle.cm_html.specs.steps.Bytes.{has_escape};

use crate::search::Quoted;
use cm_text::{Replaced, push_replaced};
use std::alloc::AllocError;

/// The indentation of a line inside 32 nodes.
const MARGIN: &str = "                                                                ";

/// Writes the indentation of a line inside `depth` nodes, up to 32 of them at once. The length limit of a
/// `String` keeps their number small.
pub(crate) fn push_margin(out: &mut String, depth: usize) -> Result<(), AllocError>
    ensures written { OnOk result (string_bytes out.new ≡ string_bytes out.old ++ margin depth) }
    ensures small { OnOk result (depth < 2 ^ 63) }
{
    let mut left = depth;
    while left > 0 {
        let nodes = left.min(MARGIN.len() / 2);
        out.push_str(&MARGIN[..2 * nodes])?;
        left -= nodes;
    }
    Ok(())
}

impl Replaced for Quoted {
    ghost written = { quote_byte };

    fn push(out: &mut String, b: u8) -> Result<(), AllocError> {
        match b {
            b'\\' => out.push_str("\\\\"),
            b'"' => out.push_str("\\\""),
            b'\n' => out.push_str("\\n"),
            _ => write!(out, "\\x{b:02x}"),
        }
    }
}

/// Writes a text between quotes.
pub(crate) fn push_quoted(out: &mut String, text: &str) -> Result<(), AllocError>
    ensures { OnOk result (string_bytes out.new ≡ string_bytes out.old ++ quoted text.now) }
{
    out.push_str("\"")?;
    push_replaced::<Quoted>(out, text)?;
    out.push_str("\"")
}
