//! Strings of JSON.
ghost use Rattle.std.specs.Prelude.{◌≡◌, ◌==◌, ◌||◌, ◌++◌};
ghost use Rattle.std.specs.Prelude.{ℕ, position, nat_lt, IsTrue, string_bytes, OnOk, flat_map};
ghost use Rattle.json.specs.Print as json;
ghost use Rattle.cm_html.specs.steps.Bytes.{has_json_escape};

use crate::search::JsonEscaped;
use cm_text::{Replaced, push_replaced};
use std::alloc::AllocError;

impl Replaced for JsonEscaped {
    ghost written = { json.escape_byte };

    #[tactic(auto, unfolding(json::specs::Print::escape_byte))]
    fn push(out: &mut String, b: u8) -> Result<(), AllocError> {
        match b {
            b'\\' => out.push_str("\\\\"),
            b'"' => out.push_str("\\\""),
            b'\n' => out.push_str("\\n"),
            b'\t' => out.push_str("\\t"),
            b'\r' => out.push_str("\\r"),
            8 => out.push_str("\\b"),
            12 => out.push_str("\\f"),
            _ => write!(out, "\\u00{b:02x}"),
        }
    }
}

/// Writes a text as the content of a JSON string, without the quotes.
pub(crate) fn push_json_escaped(out: &mut String, text: &str) -> Result<(), AllocError>
    ensures { OnOk result (string_bytes out.new ≡ string_bytes out.old ++ json.escape text.now) }
{
    push_replaced::<JsonEscaped>(out, text)
}
