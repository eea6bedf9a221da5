//! Phrases of JSON that are held as one byte each.
//!
//! In JSON the bytes below the space occur as escapes alone, so each of them can be held for a phrase. The
//! node of a text then takes 3 bytes and the text; written, it has 26 more than the text.
ghost use Rattle.std.specs.Prelude.{◌≡◌, IsTrue};
ghost use Rattle.cm_json.specs.steps.Phrases.{is_held, written};

use cm_html::Phrases;
use cm_text::{ByteKind, Replaced};
use std::alloc::AllocError;
use std::simd::prelude::*;

pub(crate) const TEXT: &str = "\u{1}";

pub(crate) const VALUE: &str = "\u{2}";

pub(crate) const TEXT_END: &str = "\u{3}";

pub(crate) const HARD: &str = "\u{4}";

pub(crate) const EMPHASIS: &str = "\u{5}";

pub(crate) const STRONG: &str = "\u{6}";

pub(crate) const INLINE_CODE: &str = "\u{7}";

pub(crate) const LINK: &str = "\u{8}";

pub(crate) const IMAGE: &str = "\u{9}";

pub(crate) const CHILDREN: &str = "\u{b}";

pub(crate) const URL: &str = "\u{c}";

pub(crate) const TITLE: &str = "\u{d}";

pub(crate) const NULL: &str = "\u{e}";

pub(crate) const ALT: &str = "\u{f}";

pub(crate) const PARAGRAPH: &str = "\u{10}";

pub(crate) const LINES: &str = "\u{11}";

pub(crate) const HEADING: &str = "\u{12}";

pub(crate) const DEPTH: &str = "\u{13}";

pub(crate) const CODE: &str = "\u{14}";

pub(crate) const LANG: &str = "\u{15}";

pub(crate) const META: &str = "\u{16}";

pub(crate) const HTML: &str = "\u{17}";

pub(crate) const THEMATIC_BREAK: &str = "\u{18}";

pub(crate) const DEFINITION: &str = "\u{19}";

pub(crate) const IDENTIFIER: &str = "\u{1a}";

pub(crate) const LABEL: &str = "\u{1b}";

pub(crate) const QUOTE: &str = "\u{1c}";

pub(crate) const LIST_ITEM: &str = "\u{1d}";

pub(crate) const LIST: &str = "\u{1e}";

pub(crate) const SPREAD: &str = "\u{1f}";

/// The bytes that are held for phrases.
pub(crate) struct Held;

impl ByteKind for Held {
    ghost passes = { is_held };

    #[inline(always)]
    fn contains(b: u8) -> bool {
        b < 32
    }

    #[inline(always)]
    fn lanes(lanes: u8x16) -> u64 {
        lanes.simd_lt(u8x16::splat(32)).to_bitmask()
    }
}

impl Replaced for Held {
    ghost written = { written };

    fn push(out: &mut String, b: u8) -> Result<(), AllocError> {
        out.push_str(phrase(b))
    }
}

impl Phrases for Held {
    ghost written = { written };

    fn first(bytes: &[u8]) -> Option<(usize, &'static str)> {
        let at = Held::find(bytes)?;
        Some((at, phrase(bytes[at])))
    }
}

/// What is written for a byte that is held.
pub(crate) fn phrase(b: u8) -> &'static str
    requires { IsTrue (is_held b) }
    ensures { result.now ≡ written b }
{
    match b {
        1 => "{\"type\":\"text\",\"value\":\"",
        2 => ",\"value\":",
        3 => "\"},",
        4 => "{\"type\":\"break\"}",
        5 => "{\"type\":\"emphasis\",\"children\":[",
        6 => "{\"type\":\"strong\",\"children\":[",
        7 => "{\"type\":\"inlineCode\",\"value\":",
        8 => "{\"type\":\"link\"",
        9 => "{\"type\":\"image\"",
        10 => "\n",
        11 => ",\"children\":[",
        12 => ",\"url\":",
        13 => ",\"title\":",
        14 => "null",
        15 => ",\"alt\":",
        16 => "{\"type\":\"paragraph\"",
        17 => ",\"data\":{\"lines\":[",
        18 => "{\"type\":\"heading\"",
        19 => ",\"depth\":",
        20 => "{\"type\":\"code\"",
        21 => ",\"lang\":",
        22 => ",\"meta\":",
        23 => "{\"type\":\"html\"",
        24 => "{\"type\":\"thematicBreak\"",
        25 => "{\"type\":\"definition\"",
        26 => ",\"identifier\":",
        27 => ",\"label\":",
        28 => "{\"type\":\"blockquote\",\"children\":[",
        29 => "{\"type\":\"listItem\",\"spread\":",
        30 => "{\"type\":\"list\"",
        31 => ",\"spread\":",
        _ => "\0",
    }
}
