//! Infos of code blocks.
ghost use Rattle.std.specs.Prelude.{◌≡◌, ℕ, List, ◌∷◌, ◌++◌, [], string_bytes, OnOk};
ghost use Rattle.cm_text.specs.Unescaping.{unescape};
ghost use Rattle.cm_block.specs.Prelude.{is_line_space, as_space, info_of};

use cm_text::{ByteKind, NoMemory, Replaced, Rules, push_replaced, unescape_or_lend};
use std::alloc::{AllocError, Global};
use std::simd::prelude::*;

/// HTML's whitespace other than spaces and tabs.
struct LineSpace;

impl ByteKind for LineSpace {
    ghost passes = { is_line_space };

    #[inline(always)]
    fn contains(b: u8) -> bool {
        matches!(b, b'\n' | b'\x0C' | b'\r')
    }

    #[inline(always)]
    fn lanes(lanes: u8x16) -> u64 {
        let ends = lanes.simd_eq(u8x16::splat(b'\n')) | lanes.simd_eq(u8x16::splat(b'\r'));
        (ends | lanes.simd_eq(u8x16::splat(b'\x0C'))).to_bitmask()
    }
}

impl Replaced for LineSpace {
    ghost written = { λ b. as_space b ∷ [] };

    fn push(out: &mut String, _: u8) -> Result<(), AllocError> {
        out.push_str(" ")
    }
}

/// Adds a resolved text to an info. With rules without raw HTML it comes on one line.
fn push_resolved(rules: Rules, resolved: &str, info: &mut String) -> Result<(), AllocError>
    ensures { OnOk result ((source : List ℕ) → resolved.now ≡ unescape source
        → string_bytes info.new ≡ string_bytes info.old ++ info_of rules source) }
{
    if rules.raw_html() {
        info.push_str(resolved)?;
        return Ok(());
    }
    push_replaced::<LineSpace>(info, resolved)
}

/// Replaces an info by that of a code block, from its source. Escapes and references are resolved. The memory
/// of the info is used again.
pub(crate) fn set_info(
    alloc: Global,
    rules: Rules,
    source: &str,
    info: &mut String,
) -> Result<(), NoMemory>
    ensures { OnOk result (string_bytes info.new ≡ info_of rules source.now) }
{
    let resolved = unescape_or_lend(alloc, source)?;
    info.clear();
    Ok(push_resolved(rules, &resolved, info)?)
}
