//! Where links and images lead, and where they end (CommonMark 0.31.2, 6.3 Links).
ghost use Rattle.std.specs.Prelude.{◌≡◌, ◌+◌, ◌-◌, ◌<◌, drop, option_map, IfOk, IfSome};
ghost use Rattle.std.specs.List.{slice_range};
ghost use Rattle.std.specs.Str.{IsCharBoundary};
ghost use Rattle.cm_scan.specs.inlines.Brackets.{closed, after_destination, inline_end, Defined};
ghost use Rattle.cm_scan.specs.inlines.Brackets.{target_of, target_between};
ghost use Rattle.cm_scan.specs.inlines.Brackets.{reference_end, end_if_followed, end_at};
ghost use Rattle.cm_text.specs.Addresses.{is_followed};
ghost use Rattle.cm_text.specs.Unescaping.{unescape};
ghost use Rattle.cm_inline.specs.declared.links.Target.TheVariants as targets;
ghost use Rattle.cm_inline.specs.steps.Leaves.{defined_by};
ghost use Rattle.cm_inline.specs.steps.Links.{ends_of, leads_to, target_by, after_brackets};
ghost use Rattle.cm_inline.specs.steps.Links.{AreBrackets, IsPlaced};
ghost use Rattle.cm_inline.specs.steps.Standalone.{IsBetween};

use crate::leaf::Leaf;
use cm_scan::{after_gap, destination, is_blank_next, is_next, label, title};
use cm_text::{NoMemory, Rules, is_followed, plain_label_number, unescape_or_lend};

/// The target of a link or an image: the places of its destination and its title as they are written after
/// it, or the number of a definition.
#[derive(Clone, Copy)]
pub(crate) enum Target {
    Written {
        dest: u32,
        dest_end: u32,
        title: u32,
        title_end: u32,
    },
    Defined {
        entry: usize,
    },
}

/// The target of a link or an image, and the place where it ends.
#[derive(Clone, Copy)]
pub(crate) struct LinkEnd {
    pub(crate) target: Target,
    pub(crate) end: usize,
}

/// What follows the `]` at a place, whose opener ends at `after`: the target of a link or an image. The end
/// of an inline link takes precedence over a reference (6.3 Links). There is neither if the rules don't
/// follow its address.
pub(crate) fn link_end(
    rules: Rules,
    leaf: Leaf<'_>,
    after: usize,
    at: usize,
) -> Result<Option<LinkEnd>, NoMemory>
    requires { AreBrackets leaf.source.now after at }
    ensures ends { IfOk result (λ found. ends_of leaf.entry found
        ≡ end_at rules (defined_by leaf.entry)
        (slice_range leaf.entry.source.now after at) (drop (at + 1) leaf.entry.source.now)) }
    ensures place { IfOk result (λ found. IfSome found (λ e. (at < e.end) × IsPlaced leaf.entry e)) }
{
    if let Some(inline) = inline_end(rules, leaf, at + 1)? {
        return Ok(Some(inline));
    }
    reference_end(rules, leaf, after, at)
}

/// Whether the rules follow the address of a link or an image, whose destination comes as it is written.
#[inline(always)]
fn leads_on(rules: Rules, leaf: Leaf<'_>, dest: &str) -> Result<bool, NoMemory>
    ensures leads { IfOk result (λ leads. leads ≡ is_followed rules (unescape dest.now)) }
{
    if rules.any_address() {
        return Ok(true);
    }
    let dest = unescape_or_lend(leaf.alloc, dest)?;
    Ok(is_followed(rules, &dest))
}

/// The end of an inline link to an address that the rules follow: `(`, a
/// destination and a title or not, and `)`, with gaps between.
fn inline_end(rules: Rules, leaf: Leaf<'_>, at: usize) -> Result<Option<LinkEnd>, NoMemory>
    requires { IsCharBoundary leaf.source.now at }
    ensures ends { IfOk result (λ found. ends_of leaf.entry found
        ≡ end_if_followed rules (inline_end (drop at leaf.entry.source.now))) }
    ensures place { IfOk result (λ found. IfSome found (λ e. IsPlaced leaf.entry e)) }
{
    let bytes = leaf.source.as_bytes();
    if !is_next(bytes, at, b'(') {
        return Ok(None);
    }
    let gap = after_gap(bytes, at + 1);
    let Some((dest, end)) = destination(leaf.source, gap) else {
        return closed(rules, leaf, (at, at), (at, at), at + 1);
    };
    let from = if is_next(bytes, gap, b'<') {
        gap + 1
    } else {
        gap
    };
    after_destination(rules, leaf, (from, from + dest.len()), end)
}

/// What follows a destination: a title that a gap separates from it, or none, and the end.
fn after_destination(
    rules: Rules,
    leaf: Leaf<'_>,
    dest: (usize, usize),
    at: usize,
) -> Result<Option<LinkEnd>, NoMemory>
    requires dest { IsBetween leaf.source.now dest.0 dest.1 }
    requires boundary { IsCharBoundary leaf.source.now at }
    ensures ends { IfOk result (λ found. ends_of leaf.entry found ≡ end_if_followed rules
        (after_destination (slice_range leaf.entry.source.now dest.0 dest.1)
        (drop at leaf.entry.source.now))) }
    ensures place { IfOk result (λ found. IfSome found (λ e. IsPlaced leaf.entry e)) }
{
    if !is_blank_next(leaf.source.as_bytes(), at) {
        return closed(rules, leaf, dest, (at, at), at);
    }
    let gap = after_gap(leaf.source.as_bytes(), at);
    match title(leaf.source, gap) {
        Some((title, end)) => closed(rules, leaf, dest, (gap + 1, gap + 1 + title.len()), end),
        None => closed(rules, leaf, dest, (at, at), at),
    }
}

/// A gap and `)`, where the rules follow the destination. That and the title are places of the source.
fn closed(
    rules: Rules,
    leaf: Leaf<'_>,
    dest: (usize, usize),
    title: (usize, usize),
    at: usize,
) -> Result<Option<LinkEnd>, NoMemory>
    requires dest { IsBetween leaf.source.now dest.0 dest.1 }
    requires title { IsBetween leaf.source.now title.0 title.1 }
    requires boundary { IsCharBoundary leaf.source.now at }
    ensures ends { IfOk result (λ found. ends_of leaf.entry found ≡ end_if_followed rules
        (closed (slice_range leaf.entry.source.now dest.0 dest.1)
        (slice_range leaf.entry.source.now title.0 title.1) (drop at leaf.entry.source.now))) }
    ensures place { IfOk result (λ found. IfSome found (λ e. IsPlaced leaf.entry e)) }
{
    let end = after_gap(leaf.source.as_bytes(), at);
    if !is_next(leaf.source.as_bytes(), end, b')') {
        return Ok(None);
    }
    if !leads_on(rules, leaf, &leaf.source[dest.0..dest.1])? {
        return Ok(None);
    }
    let target = Target::Written {
        dest: dest.0 as u32,
        dest_end: dest.1 as u32,
        title: title.0 as u32,
        title_end: title.1 as u32,
    };
    Ok(Some(LinkEnd {
        target,
        end: end + 1,
    }))
}

/// The end of a reference: a full one, a collapsed one or a shortcut. There is none if a label follows that
/// isn't defined, or whose address the rules don't follow.
fn reference_end(
    rules: Rules,
    leaf: Leaf<'_>,
    after: usize,
    at: usize,
) -> Result<Option<LinkEnd>, NoMemory>
    requires { AreBrackets leaf.source.now after at }
    ensures ends { IfOk result (λ found. ends_of leaf.entry found
        ≡ end_if_followed rules (reference_end (defined_by leaf.entry)
        (slice_range leaf.entry.source.now after at) (drop (at + 1) leaf.entry.source.now))) }
    ensures place { IfOk result (λ found. IfSome found (λ e. IsPlaced leaf.entry e)) }
{
    if let Some((full, end)) = label(leaf.source, at + 1) {
        return reference(rules, leaf, full, end);
    }
    reference_between(rules, leaf, after, at)
}

/// The most bytes of a label whose characters needn't be counted.
const FEW: usize = 999;

/// The end of a collapsed reference or a shortcut, whose label is between the brackets. Most are their own
/// folded form, and then a label if they are short.
fn reference_between(
    rules: Rules,
    leaf: Leaf<'_>,
    after: usize,
    at: usize,
) -> Result<Option<LinkEnd>, NoMemory>
    requires { AreBrackets leaf.source.now after at }
    ensures ends { IfOk result (λ found. ends_of leaf.entry found ≡ end_if_followed rules (leads_to
        (target_between (defined_by leaf.entry) (slice_range leaf.entry.source.now after at))
        (after_brackets (drop (at + 1) leaf.entry.source.now)))) }
    ensures place { IfOk result (λ found. IfSome found (λ e. IsPlaced leaf.entry e)) }
{
    let end = after_brackets(leaf.source, at + 1);
    let between = &leaf.source[after..at];
    if between.len() <= FEW {
        if let Some(number) = plain_label_number(between) {
            let entry = leaf.definitions.entry_by_folded(rules, number, between);
            return Ok(end_of(entry, end));
        }
    }
    match label_between(leaf.source, after, at) {
        Some(between) => reference(rules, leaf, between, end),
        None => Ok(None),
    }
}

/// A reference to the definition with a number that ends at a place, if there is such a definition.
#[inline(always)]
fn end_of(entry: Option<usize>, end: usize) -> Option<LinkEnd>
    ensures { result ≡ option_map (λ entry. record { target = targets.Defined entry; end = end }) entry }
{
    let entry = entry?;
    Some(LinkEnd {
        target: Target::Defined { entry },
        end,
    })
}

/// The target of a reference by a label that ends at a place, if the label is defined and the rules follow
/// its address, which the table knows.
#[inline(always)]
fn reference(
    rules: Rules,
    leaf: Leaf<'_>,
    label: &str,
    end: usize,
) -> Result<Option<LinkEnd>, NoMemory>
    requires { IsCharBoundary leaf.source.now end }
    ensures ends { IfOk result (λ found. ends_of leaf.entry found ≡ end_if_followed rules
        (leads_to (target_of (defined_by leaf.entry) label.now) (drop end leaf.entry.source.now))) }
    ensures place { IfOk result (λ found. IfSome found (λ e. IsPlaced leaf.entry e)) }
{
    Ok(end_of(leaf.definitions.entry_by(rules, label)?, end))
}

/// The source between the brackets, if it is a link label.
fn label_between(source: &str, after: usize, at: usize) -> Option<&str>
    requires { AreBrackets source.now after at }
    ensures target { (defined : Defined) → target_by defined result
        ≡ target_between defined (slice_range source.now after at) }
{
    let (between, end) = label(source, after - 1)?;
    if end != at + 1 {
        return None;
    }
    Some(between)
}

/// The place after the `[]` of a collapsed reference, or the place itself.
fn after_brackets(source: &str, at: usize) -> usize
    requires { IsCharBoundary source.now at }
    ensures rest { drop result source.now ≡ after_brackets (drop at source.now) }
    ensures boundary { IsCharBoundary source.now result }
{
    if is_next(source.as_bytes(), at, b'[') && is_next(source.as_bytes(), at + 1, b']') {
        return at + 2;
    }
    at
}
