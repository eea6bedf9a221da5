//! The listing of a document.
ghost use Rattle.std.specs.Prelude.{◌≡◌, ◌<◌, ◌^◌, [], ◌∷◌, ◌++◌, map, string_bytes, OnOk, IfOk};
ghost use Rattle.std.specs.Fmt.{decimal};
ghost use Rattle.cm_html.specs.Listing.{all_quoted, line, holder, heading_line, list_mark};
ghost use Rattle.cm_html.specs.Listing.{list_line, listed_inline, listed_inlines, listed, listed_blocks};
ghost use Rattle.cm_html.specs.Listing.{owner_text, owner_line, owners_from, listing_of};

use crate::forms::Form;
use crate::pages::Pages;
use cm_text::NoMemory;
use cm_tree::{Block, BoxedText, Doc, Inline, ListKind, Owner};
use std::alloc::{AllocError, Global};

/// The listing of a document: a line for each node of the tree, parents first, with two spaces of indentation
/// for each node around it, and then a line for each line of the source, with its owner.
///
/// | Node | Its line |
/// |---|---|
/// | a block without texts | `paragraph`, `heading 2`, `break`, `quote`, `item` |
/// | a list | `list bullet * tight`, or `-` or `+`; `list ordered . 3 loose`, or `)` |
/// | a block with texts | `code "info" "text"`, `html "text"`, `definition "label" "dest" "title"` |
/// | an inline | `text "a"`, `code "a"`, `html "<b>"`, `soft`, `hard`, `emph`, `strong` |
/// | a link or an image | `link "dest" "title"`, `image "dest" "title"` |
///
/// Between quotes a backslash, a quotation mark and a line feed are written `\\`, `\"` and `\n`, each
/// other ASCII control character as `\x` and two lower-case hexadecimal digits, and all else as it is.
/// The lines of the source are numbered from 1, as in `owner 1 leaf 1`, `owner 2 marker` and
/// `owner 3 blank`.
///
/// # Errors
///
/// `NoMemory` if a request for memory was refused.
pub fn listing(alloc: Global, doc: &Doc) -> Result<String, NoMemory>
    ensures { IfOk result (λ listing. string_bytes listing ≡ listing_of doc.now.blocks doc.now.owners) }
{
    let mut out = Pages::unparted(alloc);
    push_document(&mut out, doc)?;
    Ok(out.into_string()?)
}

/// Writes the listing of a document, in pages.
pub(crate) fn push_document(out: &mut Pages, doc: &Doc) -> Result<(), AllocError>
    ensures { OnOk result (out.new ≡ out.old ++ listing_of doc.now.blocks doc.now.owners) }
{
    push_parted(out, doc.blocks.as_slice())?;
    push_listed_owners(out, doc.owners.as_slice())
}

/// Writes the blocks of the top level.
fn push_parted(out: &mut Pages, blocks: &[Block]) -> Result<(), AllocError>
    ensures { OnOk result (out.new ≡ out.old ++ listed_blocks 0 blocks.now) }
{
    for block in blocks {
        push_listed_block(out, block)?;
    }
    Ok(())
}

/// Adds the listing of a block of the top level, and turns the page.
///
/// # Errors
///
/// As `Pages::push_str`.
pub fn push_listed_block(out: &mut Pages, block: &Block) -> Result<(), AllocError>
    ensures { OnOk result (out.new ≡ out.old ++ listed block.now 0) }
{
    push_block(out, 0, block)?;
    out.turn()
}

/// Writes texts between quotes, each after a space.
fn push_all_quoted(out: &mut Pages, texts: &[&str]) -> Result<(), AllocError>
    ensures { OnOk result (out.new ≡ out.old ++ all_quoted (map (λ text. text.now) texts.now)) }
{
    for text in texts {
        out.push_str(" ")?;
        out.push_in_form(Form::Quoted, text)?;
    }
    Ok(())
}

/// Writes the line of a node.
fn push_line(out: &mut Pages, depth: usize, word: &str, texts: &[&str]) -> Result<(), AllocError>
    ensures written { OnOk result
        (out.new ≡ out.old ++ line depth word.now (map (λ text. text.now) texts.now)) }
    ensures small { OnOk result (depth < 2 ^ 63) }
{
    out.push_margin(depth)?;
    out.push_str(word)?;
    push_all_quoted(out, texts)?;
    out.push_str("\n")
}

/// Writes a destination and a title between quotes, each after a space. Long texts that have other owners are
/// held once.
fn push_target(out: &mut Pages, dest: &BoxedText, title: &BoxedText) -> Result<(), AllocError>
    ensures { OnOk result (out.new ≡ out.old ++ all_quoted (dest.now ∷ title.now ∷ [])) }
{
    out.push_str(" ")?;
    out.push_formed(Form::Quoted, dest)?;
    out.push_str(" ")?;
    out.push_formed(Form::Quoted, title)
}

/// Writes the line of a link or an image.
fn push_target_line(
    out: &mut Pages,
    depth: usize,
    word: &str,
    dest: &BoxedText,
    title: &BoxedText,
) -> Result<(), AllocError>
    ensures written { OnOk result (out.new ≡ out.old ++ line depth word.now (dest.now ∷ title.now ∷ [])) }
    ensures small { OnOk result (depth < 2 ^ 63) }
{
    out.push_margin(depth)?;
    out.push_str(word)?;
    push_target(out, dest, title)?;
    out.push_str("\n")
}

/// Writes inlines inside `depth` nodes, one after another.
#[cycle(inline_lines)]
fn push_inlines(out: &mut Pages, depth: usize, inlines: &[Inline]) -> Result<(), AllocError>
    ensures { OnOk result (out.new ≡ out.old ++ listed_inlines depth inlines.now) }
{
    for inline in inlines {
        push_inline(out, depth, inline)?;
    }
    Ok(())
}

/// Writes an inline and what it holds.
#[cycle(inline_lines)]
fn push_inline(out: &mut Pages, depth: usize, inline: &Inline) -> Result<(), AllocError>
    ensures { OnOk result (out.new ≡ out.old ++ listed_inline inline.now depth) }
{
    match inline {
        Inline::Text(text) => push_line(out, depth, "text", &[text.as_str()]),
        Inline::Code(text) => push_line(out, depth, "code", &[text.as_str()]),
        Inline::Html(text) => push_line(out, depth, "html", &[text.as_str()]),
        Inline::Soft => push_line(out, depth, "soft", &[]),
        Inline::Hard => push_line(out, depth, "hard", &[]),
        Inline::Emph(content) => { push_with_inlines(out, depth, "emph", content.as_slice()) }
        Inline::Strong(content) => { push_with_inlines(out, depth, "strong", content.as_slice()) }
        Inline::Strike(content) => { push_with_inlines(out, depth, "strike", content.as_slice()) }
        Inline::Link {
            dest,
            title,
            content,
        } => {
            push_target_line(out, depth, "link", dest, title)?;
            push_inlines(out, depth + 1, content.as_slice())
        }
        Inline::Image {
            dest,
            title,
            content,
        } => {
            push_target_line(out, depth, "image", dest, title)?;
            push_inlines(out, depth + 1, content.as_slice())
        }
    }
}

/// Writes a node and the inlines that it holds.
#[cycle(inline_lines)]
fn push_with_inlines(
    out: &mut Pages,
    depth: usize,
    word: &str,
    content: &[Inline],
) -> Result<(), AllocError>
    ensures { OnOk result (out.new ≡ out.old ++ holder depth word.now [] (map listed_inline content.now)) }
{
    push_line(out, depth, word, &[])?;
    push_inlines(out, depth + 1, content)
}

/// Writes a word, followed by a number.
fn push_with_number(out: &mut Pages, word: &str, number: usize) -> Result<(), AllocError>
    ensures { OnOk result (out.new ≡ out.old ++ word.now ++ decimal number) }
{
    out.push_str(word)?;
    out.push_number(number)
}

fn push_heading_line(out: &mut Pages, depth: usize, level: u8) -> Result<(), AllocError>
    ensures written { OnOk result (out.new ≡ out.old ++ heading_line depth level) }
    ensures small { OnOk result (depth < 2 ^ 63) }
{
    out.push_margin(depth)?;
    push_with_number(out, "heading ", usize::from(level))?;
    out.push_str("\n")
}

fn push_marker(out: &mut Pages, kind: ListKind) -> Result<(), AllocError>
    ensures { OnOk result (out.new ≡ out.old ++ list_mark kind) }
{
    match kind {
        ListKind::Dash => out.push_str("bullet -"),
        ListKind::Plus => out.push_str("bullet +"),
        ListKind::Star => out.push_str("bullet *"),
        ListKind::Dot { start } => push_with_number(out, "ordered . ", start as usize),
        ListKind::Paren { start } => push_with_number(out, "ordered ) ", start as usize),
    }
}

fn push_list_line(
    out: &mut Pages,
    depth: usize,
    kind: ListKind,
    tight: bool,
) -> Result<(), AllocError>
    ensures written { OnOk result (out.new ≡ out.old ++ list_line depth kind tight) }
    ensures small { OnOk result (depth < 2 ^ 63) }
{
    out.push_margin(depth)?;
    out.push_str("list ")?;
    push_marker(out, kind)?;
    out.push_str(if tight { " tight\n" } else { " loose\n" })
}

/// Writes blocks inside `depth` nodes, one after another.
#[cycle(block_lines)]
fn push_blocks(out: &mut Pages, depth: usize, blocks: &[Block]) -> Result<(), AllocError>
    ensures { OnOk result (out.new ≡ out.old ++ listed_blocks depth blocks.now) }
{
    for block in blocks {
        push_block(out, depth, block)?;
    }
    Ok(())
}

/// Writes a block and what it holds.
#[cycle(block_lines)]
fn push_block(out: &mut Pages, depth: usize, block: &Block) -> Result<(), AllocError>
    ensures { OnOk result (out.new ≡ out.old ++ listed block.now depth) }
{
    match block {
        Block::Paragraph(content) => {
            push_with_inlines(out, depth, "paragraph", content.as_slice())
        }
        Block::Heading { level, content } => {
            push_heading_line(out, depth, *level)?;
            push_inlines(out, depth + 1, content.as_slice())
        }
        Block::Code { info, text } => {
            push_line(out, depth, "code", &[info.as_str(), text.as_str()])
        }
        Block::Html { text } => push_line(out, depth, "html", &[text.as_str()]),
        Block::Break => push_line(out, depth, "break", &[]),
        Block::Definition { label, dest, title } => {
            let texts = [label.as_str(), dest.as_str(), title.as_str()];
            push_line(out, depth, "definition", &texts)
        }
        Block::Quote(blocks) => push_with_blocks(out, depth, "quote", blocks.as_slice()),
        Block::List { kind, tight, items } => {
            push_list_line(out, depth, *kind, *tight)?;
            for item in items.as_slice() {
                push_with_blocks(out, depth + 1, "item", item.as_slice())?;
            }
            Ok(())
        }
    }
}

/// Writes a node and the blocks that it holds.
#[cycle(block_lines)]
fn push_with_blocks(
    out: &mut Pages,
    depth: usize,
    word: &str,
    blocks: &[Block],
) -> Result<(), AllocError>
    ensures { OnOk result (out.new ≡ out.old ++ holder depth word.now [] (map listed blocks.now)) }
{
    push_line(out, depth, word, &[])?;
    push_blocks(out, depth + 1, blocks)
}

fn push_owner(out: &mut Pages, owner: Owner) -> Result<(), AllocError>
    ensures { OnOk result (out.new ≡ out.old ++ owner_text owner) }
{
    match owner {
        Owner::Leaf(leaf) => push_with_number(out, "leaf ", leaf),
        Owner::Marker => out.push_str("marker"),
        Owner::Blank => out.push_str("blank"),
    }
}

fn push_owner_line(out: &mut Pages, number: usize, owner: Owner) -> Result<(), AllocError>
    ensures { OnOk result (out.new ≡ out.old ++ owner_line number owner) }
{
    push_with_number(out, "owner ", number)?;
    out.push_str(" ")?;
    push_owner(out, owner)?;
    out.push_str("\n")
}

/// Adds a line for each line of the source, with its owner, and turns the page between them.
///
/// # Errors
///
/// As `Pages::push_str`.
pub fn push_listed_owners(out: &mut Pages, owners: &[Owner]) -> Result<(), AllocError>
    ensures { OnOk result (out.new ≡ out.old ++ owners_from 1 owners.now) }
{
    for (index, owner) in owners.iter().enumerate() {
        push_owner_line(out, index + 1, *owner)?;
        out.turn()?;
    }
    Ok(())
}
