//! Cases of plain source: what a tree is spelled as, or that it is refused.

use crate::cases::Case;
use crate::dialects::rules_of;
use crate::trouble::{Trouble, same, wrong};
use cm_html::listing;
use cm_source::{
    SourceFault, Speller, Why, block_without_definitions, spell, spell_by, spellable, spellable_by,
    without_definitions,
};
use cm_text::Rules;
use cm_tree::{Block, Doc, Items};
use std::alloc::Global;

/// The source of a tree with these rules, or with the standard's.
fn source_of(alloc: Global, rules: Option<Rules>, blocks: &[Block]) -> Result<String, SourceFault> {
    match rules {
        Some(rules) => spell_by(alloc, rules, blocks),
        None => spell(alloc, blocks),
    }
}

/// Why a tree can't be spelled with these rules, or with the standard's.
fn refusal(rules: Option<Rules>, blocks: &[Block]) -> Option<Why> {
    match rules {
        Some(rules) => spellable_by(rules, blocks).err(),
        None => spellable(blocks).err(),
    }
}

/// Checks that the tree is spelled or refused as its case expects.
fn is_spelled(
    alloc: Global,
    case: &Case,
    rules: Option<Rules>,
    blocks: &[Block],
) -> Result<(), Trouble> {
    let (source, why) = match source_of(alloc, rules, blocks) {
        Ok(source) => (source, None),
        Err(SourceFault::Unspellable { why }) => (String::new(alloc), Some(why)),
        Err(SourceFault::NoMemory) => return Err(Trouble::NoMemory),
    };
    if refusal(rules, blocks) != why {
        return Err(wrong(alloc, "a tree is spelled and can't be, or can be and isn't"));
    }
    let wanted = case.bytes("spelled")?.unwrap_or(Vec::new(alloc));
    same(alloc, "source", wanted.as_slice(), source.as_bytes())?;
    let told = match why {
        Some(why) => format!(in alloc; "{why}")?,
        None => String::new(alloc),
    };
    let wanted = case.rest("refused").unwrap_or("");
    same(alloc, "refusal", wanted.as_bytes(), told.as_bytes())
}

/// Checks that the tree without its definitions is the one that the case expects.
fn is_kept(alloc: Global, wanted: &str, blocks: &Items<Block>) -> Result<(), Trouble> {
    let kept = Doc {
        blocks: without_definitions(alloc, blocks.clone()?),
        owners: Items::new(alloc),
    };
    let got = listing(alloc, &kept)?;
    same(alloc, "kept", wanted.as_bytes(), got.as_bytes())
}

/// The source that is spelled for blocks one after another without their definitions, and why some are
/// refused.
fn pushed(alloc: Global, rules: Rules, blocks: &Items<Block>) -> Result<(String, String), Trouble> {
    let mut speller = Speller::new(alloc, rules);
    let mut reasons = String::new(alloc);
    for block in blocks {
        if let Some(block) = block_without_definitions(alloc, block.clone()?) {
            if let Err(fault) = speller.push(&block) {
                write!(reasons, "{fault}\n")?;
            }
        }
    }
    Ok((speller.finish()?, reasons))
}

/// Checks that pushing the blocks one after another gives the source that the case expects, and its reasons.
fn are_pushed(
    alloc: Global,
    case: &Case,
    wanted: &str,
    blocks: &Items<Block>,
) -> Result<(), Trouble> {
    let rules = rules_of(alloc, case.rest("rules").unwrap_or("profile"))?;
    let (source, reasons) = pushed(alloc, rules, blocks)?;
    same(alloc, "source", wanted.as_bytes(), source.as_bytes())?;
    let wanted = case.lines("reasons").unwrap_or("");
    same(alloc, "reasons", wanted.as_bytes(), reasons.as_bytes())
}

/// The rules that the case names, if it does.
fn rules_named(alloc: Global, case: &Case) -> Result<Option<Rules>, Trouble> {
    match case.rest("rules") {
        Some(name) => Ok(Some(rules_of(alloc, name)?)),
        None => Ok(None),
    }
}

/// Checks that the tree is spelled as the parts of its case expect.
pub fn agrees(alloc: Global, case: &Case, blocks: &Items<Block>) -> Result<(), Trouble> {
    if case.has("spelled") || case.has("refused") {
        is_spelled(alloc, case, rules_named(alloc, case)?, blocks.as_slice())?;
    }
    if let Some(wanted) = case.lines("kept") {
        is_kept(alloc, wanted, blocks)?;
    }
    match case.lines("pushed") {
        Some(wanted) => are_pushed(alloc, case, wanted, blocks),
        None => Ok(()),
    }
}
