//! Which trees can't be spelled so that they read back, and why not.
ghost use Rattle.std.specs.Prelude.{◌≡◌, [], ◌∷◌, None, true, not, ◌&&◌, ◌||◌, nat_le, map};
ghost use Rattle.std.specs.List.{list_all, list_any};
ghost use Rattle.cm_text.specs.Rules as text_rules;
ghost use Rattle.cm_text.specs.Rules.{profile};
ghost use Rattle.cm_scan.specs.Words.{◌<|>◌};
ghost use Rattle.cm_tree.specs.Followed.{is_line_space, is_read_info};
ghost use Rattle.cm_source.specs.Answers.{ok_unless};
ghost use Rattle.cm_source.specs.InlineRefusals.{refused, has_nul, paragraph_refusal, heading_refusal};
ghost use Rattle.cm_source.specs.Refusals.{is_list, has_two, begins_late, can_follow, is_tight_item};
ghost use Rattle.cm_source.specs.Refusals.{is_as_said, begins_too_high, is_code_text, code_reasons};
ghost use Rattle.cm_source.specs.Refusals.{is_html_block, faces, judged_block, is_after_same};
ghost use Rattle.cm_source.specs.Refusals.{list_reasons, is_filled, refusal_of_all, refusal_of};
ghost use Rattle.cm_source.specs.steps.BlockFaces.{is_paragraph, faces_of_items};
ghost use Rattle.cm_source.specs.Faces.{shown, seen};

use crate::html_alone::is_html_block;
use crate::inline_refusals::{check_in_heading, check_in_paragraph, has_nul, has_nul_in};
use crate::texts::is_code_text;
use crate::why::{Why, refuse_if};
use cm_scan::{MOST_DIGITS, is_same_kind};
use cm_text::Rules;
use cm_tree::{Block, Inline, Items, ListKind};

/// What neighbouring blocks see of a block.
#[derive(Clone, Copy)]
pub(crate) enum Face {
    Paragraph,
    Code,
    Quote,
    /// A list, with whether its first item has a block.
    List { kind: ListKind, filled: bool },
    Other,
}

/// Whether the first item of a list has a block.
fn is_filled(items: &[Items<Block>]) -> bool
    ensures { (rules : text_rules.Rules) → result ≡ is_filled (map (map (judged_block rules)) items.now) }
{
    match items.first() {
        Some(item) => !item.is_empty(),
        None => false,
    }
}

/// What neighbouring blocks see of a block.
pub(crate) fn face_of(block: &Block) -> Face
    ensures { (rules : text_rules.Rules) → shown result ≡ (judged_block rules block.now).face }
{
    match block {
        Block::Paragraph(_) => Face::Paragraph,
        Block::Code { .. } => Face::Code,
        Block::Quote(_) => Face::Quote,
        Block::List { kind, items, .. } => Face::List {
            kind: *kind,
            filled: is_filled(items.as_slice()),
        },
        _ => Face::Other,
    }
}

/// Whether this is an ordered list that doesn't start at 1.
fn begins_late(kind: ListKind) -> bool
    ensures { result ≡ begins_late kind }
{
    match kind {
        ListKind::Dot { start } => start != 1,
        ListKind::Paren { start } => start != 1,
        _ => false,
    }
}

/// Whether a block can follow a paragraph without an empty line.
fn can_follow(face: Face) -> bool
    ensures { result ≡ can_follow (shown face) }
{
    match face {
        Face::Code => true,
        Face::Quote => true,
        Face::List { kind, filled } => filled && !begins_late(kind),
        _ => false,
    }
}

/// Whether this is a paragraph.
fn is_paragraph(face: Face) -> bool
    ensures { result ≡ is_paragraph (shown face) }
{
    matches!(face, Face::Paragraph)
}

/// Whether an item of a tight list can have these blocks.
fn is_tight_item(blocks: &[Block]) -> bool
    ensures { (rules : text_rules.Rules) → result
        ≡ is_tight_item (faces (map (judged_block rules) blocks.now)) }
{
    match blocks {
        [] => true,
        [_] => true,
        [first, next] => is_paragraph(face_of(first)) && can_follow(face_of(next)),
        _ => false,
    }
}

/// Whether a tight list can have these items.
fn are_tight(items: &[Items<Block>]) -> bool
    ensures { (rules : text_rules.Rules) → result ≡ list_all is_tight_item (faces_of_items rules items.now) }
{
    for item in items {
        if !is_tight_item(item.as_slice()) {
            return false;
        }
    }
    true
}

/// Whether one of these items has two blocks or more.
fn any_has_two(items: &[Items<Block>]) -> bool
    ensures { (rules : text_rules.Rules) → result ≡ list_any has_two (faces_of_items rules items.now) }
{
    for item in items {
        if item.len() > 1 {
            return true;
        }
    }
    false
}

/// Whether a list with these items is tight or loose, as it says.
fn is_as_said(tight: bool, items: &[Items<Block>]) -> bool
    ensures { (rules : text_rules.Rules) → result ≡ is_as_said tight (faces_of_items rules items.now) }
{
    if tight {
        return are_tight(items);
    }
    items.len() > 1 || any_has_two(items)
}

/// Whether an ordered list starts with a number that has too many digits.
fn begins_too_high(kind: ListKind) -> bool
    ensures { result ≡ begins_too_high kind }
{
    match kind {
        ListKind::Dot { start } | ListKind::Paren { start } => start >= 10_u32.pow(MOST_DIGITS),
        _ => false,
    }
}

/// Whether a list of the same kind is right before.
fn is_after_same(kind: ListKind, before: Option<Face>) -> bool
    ensures { result ≡ is_after_same kind (seen before) }
{
    match before {
        Some(Face::List { kind: other, .. }) => is_same_kind(kind, other),
        _ => false,
    }
}

/// Whether an item starts with a list.
fn begins_with_list(item: &[Block]) -> bool
    ensures { (rules : text_rules.Rules) → result ≡ is_list (faces (map (judged_block rules) item.now)) }
{
    match item.first() {
        Some(first) => matches!(face_of(first), Face::List { .. }),
        None => false,
    }
}

/// Whether one of these items starts with a list.
fn any_begins_with_list(items: &[Items<Block>]) -> bool
    ensures { (rules : text_rules.Rules) → result ≡ list_any is_list (faces_of_items rules items.now) }
{
    for item in items {
        if begins_with_list(item.as_slice()) {
            return true;
        }
    }
    false
}

/// Whether a list has no items, or starts with a number that has too many digits.
fn is_malformed(kind: ListKind, items: &[Items<Block>]) -> bool
    ensures { (rules : text_rules.Rules) → result
        ≡ (not (list_any (λ item. true) (faces_of_items rules items.now)) || begins_too_high kind) }
{
    items.is_empty() || begins_too_high(kind)
}

/// Refuses a list with these items after `before`.
fn check_list(
    kind: ListKind,
    tight: bool,
    items: &[Items<Block>],
    before: Option<Face>,
) -> Result<(), Why>
    ensures { (rules : text_rules.Rules) → result
        ≡ ok_unless (refused (list_reasons kind tight (faces_of_items rules items.now) (seen before))) }
{
    refuse_if(is_malformed(kind, items), Why::Shape)?;
    refuse_if(is_after_same(kind, before), Why::AdjacentLists)?;
    refuse_if(any_begins_with_list(items), Why::ItemBeginsWithList)?;
    refuse_if(!is_as_said(tight, items), Why::Looseness)
}

/// Refuses a code block.
fn check_code(rules: Rules, info: &str, text: &str) -> Result<(), Why>
    ensures { result ≡ ok_unless (refused (code_reasons rules info.now text.now)) }
{
    refuse_if(has_nul_in(info, text), Why::Nul)?;
    refuse_if(!is_code_text(text), Why::CodeText)?;
    refuse_if(!is_read_info(rules, info), Why::InfoOff)
}

/// Whether an info is one that the rules leave as it is.
fn is_read_info(rules: Rules, info: &str) -> bool
    ensures { result ≡ is_read_info rules info.now }
{
    rules.raw_html() || !has_line_space(info)
}

/// Whether an info has a line feed, a form feed or a carriage return.
fn has_line_space(info: &str) -> bool
    ensures { result ≡ list_any is_line_space info.now }
{
    info.as_bytes()
        .iter()
        .any(|b| *b == b'\n' || *b == b'\x0C' || *b == b'\r')
}

/// Refuses an HTML block.
fn check_html(rules: Rules, text: &str) -> Result<(), Why>
    ensures { result ≡ ok_unless (refused ((has_nul text.now, Why.Nul)
        ∷ (not (is_html_block rules text.now), Why.HtmlBlock) ∷ [])) }
{
    refuse_if(has_nul(text), Why::Nul)?;
    refuse_if(!is_html_block(rules, text), Why::HtmlBlock)
}

/// Refuses a paragraph.
fn check_paragraph(rules: Rules, content: &[Inline]) -> Result<(), Why>
    ensures { result ≡ ok_unless (refused ((not (list_any (λ i. true) content.now), Why.Shape) ∷ [])
        <|> paragraph_refusal rules content.now) }
{
    refuse_if(content.is_empty(), Why::Shape)?;
    check_in_paragraph(rules, content)
}

/// Refuses a heading.
fn check_heading(rules: Rules, level: u8, content: &[Inline]) -> Result<(), Why>
    ensures { result ≡ ok_unless (refused ((not (nat_le 1 level && nat_le level 6), Why.Shape) ∷ [])
        <|> heading_refusal rules content.now) }
{
    refuse_if(!(1..=6).contains(&level), Why::Shape)?;
    check_in_heading(rules, content)
}

/// Refuses blocks, one after another.
#[cycle(blocks)]
fn check_blocks(rules: Rules, blocks: &[Block]) -> Result<(), Why>
    ensures { result ≡ ok_unless (refusal_of_all None (map (judged_block rules) blocks.now)) }
{
    let mut before = None;
    for block in blocks {
        check_block(rules, block, before)?;
        before = Some(face_of(block));
    }
    Ok(())
}

/// Refuses a block after `before`.
#[cycle(blocks)]
pub(crate) fn check_block(rules: Rules, block: &Block, before: Option<Face>) -> Result<(), Why>
    ensures { result ≡ ok_unless ((judged_block rules block.now).refusal (seen before)) }
{
    match block {
        Block::Paragraph(content) => check_paragraph(rules, content.as_slice()),
        Block::Heading { level, content } => check_heading(rules, *level, content.as_slice()),
        Block::Code { info, text } => check_code(rules, info.as_str(), text.as_str()),
        Block::Html { text } => check_html(rules, text.as_str()),
        Block::Break => Ok(()),
        Block::Definition { .. } => Err(Why::Definition),
        Block::Quote(blocks) => check_blocks(rules, blocks.as_slice()),
        Block::List { kind, tight, items } => {
            check_list(*kind, *tight, items.as_slice(), before)?;
            for item in items.as_slice() {
                check_blocks(rules, item.as_slice())?;
            }
            Ok(())
        }
    }
}

/// Whether a tree can be spelled as plain CommonMark source that reads back as the same
/// tree. It takes no memory.
///
/// # Errors
///
/// Why it can't: the reason for which the first node in the order of the document is refused, parents first.
/// A reason that rests on two neighbours is that of the second.
pub fn spellable(blocks: &[Block]) -> Result<(), Why>
    ensures { result ≡ ok_unless (refusal_of profile blocks.now) }
{
    spellable_by(Rules::profile(), blocks)
}

/// The same with these rules.
///
/// The rules decide what a plain character next to emphasis is, which texts are raw HTML and HTML blocks, and
/// whether there is strikethrough.
///
/// # Errors
///
/// The reason, as `spellable` returns it.
pub fn spellable_by(rules: Rules, blocks: &[Block]) -> Result<(), Why>
    ensures { result ≡ ok_unless (refusal_of rules blocks.now) }
{
    check_blocks(rules, blocks)
}
