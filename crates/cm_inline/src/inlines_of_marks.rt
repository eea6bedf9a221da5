//! The inlines of marks, once all pairs and links are made.
ghost use Rattle.std.specs.Prelude.{◌≡◌, ◌++◌, true, ℕ, codes, encode_utf8, if◌then◌else◌, IfOk, OnOk};
ghost use Rattle.std.specs.List.{slice_range};
ghost use Rattle.cm_text.specs.Unescaping.{unescape};
ghost use Rattle.cm_tree.specs.LinkTargets.{led_to};
ghost use Rattle.cm_tree.specs.declared.tree.Inline.TheVariants as inlines;
ghost use Rattle.cm_scan.specs.spans.CodeSpans.{one_line};
ghost use Rattle.cm_inline.specs.steps.pairing.Events.{add_inline, add_text, build, ended, inlines_of};
ghost use Rattle.cm_inline.specs.steps.pairing.Events.{made_of};
ghost use Rattle.cm_inline.specs.steps.Building.{built_in, closed};
ghost use Rattle.cm_inline.specs.steps.Marks.{events_in, link_tag, target_in, IsSettled, IsTargetIn};
ghost use Rattle.cm_inline.specs.steps.Standalone.{autolink, IsBetween};
ghost use Rattle.cm_inline.specs.steps.Writing.{mark_events, IsMarkIn};

use crate::brackets::{Link, Reader};
use crate::code::one_line;
use crate::links::Target;
use crate::made::Made;
use crate::marks::{Kind, Mark, part, unescaped_part};
use crate::spare::Spare;
use cm_tree::{BoxedText, Definitions, Inline, Items, LinkTarget};
use std::alloc::AllocError;

/// The target of a link: copies of plain texts, and shared ones themselves.
fn boxed_target(
    spare: &mut Spare,
    target: LinkTarget<'_>,
) -> Result<(BoxedText, BoxedText), AllocError>
    ensures { IfOk result (λ boxed. (boxed.0, boxed.1) ≡ led_to target.entry) }
{
    match target {
        LinkTarget::Plain { dest, title } => Ok((spare.boxed(dest)?, spare.boxed(title)?)),
        LinkTarget::Shared { dest, title } => Ok((dest.clone()?, title.clone()?)),
    }
}

/// The source between two places, unescaped, on the heap.
fn boxed_part(spare: &mut Spare, source: &str, from: u32, to: u32) -> Result<BoxedText, AllocError>
    requires { IsBetween source.now from to }
    ensures part { IfOk result (λ text. text ≡ unescape (slice_range source.now from to)) }
{
    let text = unescaped_part(spare.alloc(), source, from, to)?;
    spare.boxed(&text)
}

/// The target of a link, on the heap.
fn boxed_target_of(
    spare: &mut Spare,
    source: &str,
    definitions: &Definitions,
    target: Target,
) -> Result<(BoxedText, BoxedText), AllocError>
    requires { IsTargetIn source.now definitions.now target }
    ensures target { IfOk result (λ boxed. (boxed.0, boxed.1) ≡ target_in source.now definitions.now target) }
{
    match target {
        Target::Written {
            dest,
            dest_end,
            title,
            title_end,
        } => {
            let dest = boxed_part(spare, source, dest, dest_end)?;
            let title = boxed_part(spare, source, title, title_end)?;
            Ok((dest, title))
        }
        Target::Defined { entry } => boxed_target(spare, definitions.target_at(entry)),
    }
}

/// A link or an image with a content.
fn link_with(
    spare: &mut Spare,
    source: &str,
    definitions: &Definitions,
    link: Link,
    content: Items<Inline>,
) -> Result<Inline, AllocError>
    requires { IsTargetIn source.now definitions.now link.target }
    ensures made { IfOk result (λ inline. (number : ℕ)
        → inline ≡ made_of (link_tag source.now definitions.now number link) content) }
{
    let (dest, title) = boxed_target_of(spare, source, definitions, link.target)?;
    if link.image {
        Ok(Inline::Image {
            dest,
            title,
            content,
        })
    } else {
        Ok(Inline::Link {
            dest,
            title,
            content,
        })
    }
}

/// Ends the innermost node, which is a link or an image.
fn close_link(
    made: &mut Made,
    spare: &mut Spare,
    source: &str,
    definitions: &Definitions,
    link: Link,
) -> Result<(), AllocError>
    requires { IsTargetIn source.now definitions.now link.target }
    ensures closed { OnOk result ((number : ℕ) → built_in made.new ≡ closed (built_in made.old)
        (made_of (link_tag source.now definitions.now number link) (ended (built_in made.old)))) }
{
    let content = made.take_content(spare)?;
    let inline = link_with(spare, source, definitions, link, content)?;
    made.content.push(inline)
}

/// The destination of an autolink, on the heap.
fn boxed_destination(
    spare: &mut Spare,
    is_address: bool,
    text: &str,
) -> Result<BoxedText, AllocError>
    ensures destination { IfOk result (λ dest.
        dest ≡ (if is_address then codes "mailto:" ++ text.now else text.now)) }
{
    if !is_address {
        return spare.boxed(text);
    }
    let mut dest = String::from_str(spare.alloc(), "mailto:")?;
    dest.push_str(text)?;
    spare.boxed(&dest)
}

/// An autolink as a link (6.5 Autolinks).
fn autolink_to(spare: &mut Spare, is_address: bool, text: &str) -> Result<Inline, AllocError>
    ensures made { IfOk result (λ inline. inline ≡ autolink is_address text.now) }
{
    Ok(Inline::Link {
        dest: boxed_destination(spare, is_address, text)?,
        title: spare.boxed("")?,
        content: spare.one_text(text)?,
    })
}

/// Continues the text with the character of a reference.
fn add_character(made: &mut Made, spare: &mut Spare, character: char) -> Result<(), AllocError>
    ensures { OnOk result (built_in made.new ≡ add_text (built_in made.old) (encode_utf8 character)) }
{
    let mut bytes = [0; 4];
    made.add_text(spare, character.encode_utf8(&mut bytes))
}

/// Adds a code span, with spaces for the line feeds in its text.
fn push_code(made: &mut Made, spare: &mut Spare, text: &str) -> Result<(), AllocError>
    ensures pushed { OnOk result (built_in made.new
        ≡ add_inline (built_in made.old) (inlines.Code (one_line text.now))) }
{
    let text = one_line(spare, text)?;
    made.push(spare, Inline::Code(text))
}

/// Adds a mark.
fn push_mark(
    made: &mut Made,
    spare: &mut Spare,
    source: &str,
    definitions: &Definitions,
    reader: &Reader,
    mark: Mark,
) -> Result<(), AllocError>
    requires { IsMarkIn source.now definitions.now reader.now mark }
    ensures pushed { OnOk result (built_in made.new ≡ build (built_in made.old)
        (mark_events source.now definitions.now reader.now mark)) }
{
    match mark.kind {
        Kind::Plain => made.add_text(spare, part(source, mark.at, mark.end)),
        Kind::Escaped => made.add_text(spare, part(source, mark.at, mark.end)),
        Kind::Nothing => Ok(()),
        Kind::Character(character) => add_character(made, spare, character),
        Kind::Code { from, to } => push_code(made, spare, part(source, from, to)),
        Kind::Html => {
            let text = spare.text(part(source, mark.at, mark.end))?;
            made.push(spare, Inline::Html(text))
        }
        Kind::Autolink { is_address } => {
            let link = autolink_to(spare, is_address, part(source, mark.at + 1, mark.end - 1))?;
            made.push(spare, link)
        }
        Kind::Soft => made.push(spare, Inline::Soft),
        Kind::Hard => made.push(spare, Inline::Hard),
        Kind::Run { number } => made.push_run(spare, &reader.runs, number),
        Kind::Start { .. } => made.open(spare),
        Kind::End { number } => {
            let link = reader.links[number as usize];
            close_link(made, spare, source, definitions, link)
        }
    }
}

/// The inlines that the marks of a source become.
pub(crate) fn settle(
    spare: &mut Spare,
    source: &str,
    definitions: &Definitions,
    reader: &Reader,
) -> Result<Items<Inline>, AllocError>
    requires { IsSettled true source.now definitions.now reader.now }
    ensures inlines { IfOk result (λ inlines.
        inlines ≡ inlines_of (events_in source.now definitions.now reader.now)) }
{
    spare.sizes.count(source, reader)?;
    let mut made = Made::new(spare)?;
    let mut from: u32 = 0;
    for mark in reader.marks.as_slice() {
        made.add_text(spare, part(source, from, mark.at))?;
        push_mark(&mut made, spare, source, definitions, reader, *mark)?;
        from = mark.end;
    }
    made.add_text(spare, &source[from as usize..])?;
    made.end_text(spare)?;
    Ok(made.content)
}
