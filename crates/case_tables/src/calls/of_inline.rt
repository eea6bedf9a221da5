//! Calls of `cm_inline`.

use crate::calls::answer::Answer;
use crate::dialects::rules_of;
use crate::trouble::Trouble;
use crate::words::{Word, number};
use cm_html::Pages;
use cm_inline::{InlineFault, InlineReader, Steps, inlines, inlines_by, is_one_text};
use cm_text::Rules;
use cm_tree::{Definitions, Inline, Items};

/// What a reader reads of a leaf as inlines.
fn inlines_of(
    reader: &mut InlineReader,
    (rules, limit): (Rules, usize),
    table: &Definitions,
    leaf: &str,
) -> Result<Items<Inline>, InlineFault> {
    let (read, _steps) = reader.inlines(rules, leaf, table, limit)?;
    Ok(read)
}

/// What a reader adds of a leaf as HTML.
fn html_of(
    reader: &mut InlineReader,
    (rules, limit): (Rules, usize),
    html: &mut Pages,
    leaf: &str,
    table: &Definitions,
) -> Result<(), InlineFault> {
    reader.push_html(html, rules, leaf, table, limit)
}

/// What one reader reads of leaves, one after another, each as inlines and then as HTML: the inlines of each,
/// or the faults, and the HTML of all.
fn read(
    answer: &mut Answer,
    (rules, limit): (Rules, usize),
    leaves: &[Word],
) -> Result<bool, Trouble> {
    let table = Definitions::new(answer.alloc);
    let mut reader = InlineReader::new(answer.alloc);
    let mut html = Pages::new(answer.alloc)?;
    for leaf in leaves {
        let (Word::Text(leaf) | Word::Plain(leaf)) = leaf;
        let inlines = inlines_of(&mut reader, (rules, limit), &table, leaf);
        let written = html_of(&mut reader, (rules, limit), &mut html, leaf, &table);
        answer.shown(&(inlines, written))?;
    }
    answer.text(html.into_string()?.as_str())?;
    Ok(true)
}

/// The inlines of one leaf with these rules, and how many openers were looked at.
fn one_leaf(
    answer: &mut Answer,
    (rules, limit): (Rules, usize),
    leaf: &str,
) -> Result<bool, Trouble> {
    let table = Definitions::new(answer.alloc);
    answer.shown(&inlines_by(answer.alloc, rules, leaf, &table, limit))?;
    Ok(true)
}

/// Whether the number of openers that are looked at in a leaf is in this range, and how many inlines the leaf
/// has.
fn looks(answer: &mut Answer, least: &str, most: &str, leaf: &str) -> Result<bool, Trouble> {
    let least = number(answer.alloc, least)? as u128;
    let most = number(answer.alloc, most)? as u128;
    let table = Definitions::new(answer.alloc);
    match inlines(answer.alloc, leaf, &table, 1) {
        Ok((read, Steps(looks))) => {
            answer.truth(least <= looks && looks <= most)?;
            answer.number(read.len())?;
        }
        Err(fault) => answer.shown(&fault)?,
    }
    Ok(true)
}

/// The rules of this name, and a limit.
fn by(answer: &Answer, name: &str, limit: &str) -> Result<(Rules, usize), Trouble> {
    let limit = number(answer.alloc, limit)?;
    Ok((rules_of(answer.alloc, name)?, limit))
}

/// Runs the call, if it is one of `cm_inline`. Returns whether it is.
pub fn answers(answer: &mut Answer, name: &str, given: &[Word]) -> Result<bool, Trouble> {
    match given {
        [Word::Text(text)] if name == "is_one_text" => {
            answer.truth(is_one_text(text.as_str()))?;
            Ok(true)
        }
        [Word::Plain(least), Word::Plain(most), Word::Text(leaf)] if name == "inlines" => {
            looks(answer, least.as_str(), most.as_str(), leaf.as_str())
        }
        [Word::Plain(rules), Word::Plain(limit), Word::Text(leaf)] if name == "inlines_by" => {
            let by = by(answer, rules.as_str(), limit.as_str())?;
            one_leaf(answer, by, leaf.as_str())
        }
        [Word::Plain(rules), Word::Plain(limit), leaves @ ..] if name == "reader" => {
            let by = by(answer, rules.as_str(), limit.as_str())?;
            read(answer, by, leaves)
        }
        _ => Ok(false),
    }
}
