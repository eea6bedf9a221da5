//! The inlines of a leaf, or their HTML, read from its source.
ghost use Rattle.std.specs.Prelude.{◌≡◌, ◌≢◌, ◌<◌, ◌&&◌, [], ◌∷◌, ◌++◌, not};
ghost use Rattle.std.specs.Prelude.{true, false, length, IfOk, OnOk, IfErr, IsTrue, Err};
ghost use Rattle.std.specs.List.{list_any};
ghost use Rattle.cm_text.specs.Rules.{Rules, profile};
ghost use Rattle.cm_text.specs.Search.{is_marked};
ghost use Rattle.cm_tree.specs.declared.tree.Inline.TheVariants.{Text};
ghost use Rattle.cm_html.specs.Html.{inlines_html};
ghost use Rattle.cm_scan.specs.Words.{is_empty};
ghost use Rattle.cm_scan.specs.inlines.Brackets.{Defined, defined_in};
ghost use Rattle.cm_scan.specs.inlines.Inlines as inlines;
ghost use Rattle.cm_inline.specs.Reading.{Read, Reads, Refused};
ghost use Rattle.cm_inline.specs.declared.fault.InlineFault.TheVariants.{InlinesTooDeep, SourceTooLong};
ghost use Rattle.cm_inline.specs.steps.pairing.Events.{inlines_of};
ghost use Rattle.cm_inline.specs.steps.pairing.Readings.{Tags, page, write_all};
ghost use Rattle.cm_inline.specs.steps.Leaves.{ReadingOf, IsTooDeep};
ghost use Rattle.cm_inline.specs.steps.Marks.{events_in, IsSettled};
ghost use Rattle.cm_inline.specs.steps.Reads.{IsTextTo, IsAllText};

use crate::atoms::{read_atom, text_end};
use crate::brackets::Reader;
use crate::fault::InlineFault;
use crate::html::push_marks;
use crate::inlines_of_marks::settle;
use crate::leaf::Leaf;
use crate::nesting::nests_past;
use crate::spare::Spare;
use cm_html::Pages;
use cm_text::{Looks, Rules, next_marked};
use cm_tree::{Block, Definitions, Inline, Items};
use std::alloc::{AllocError, Global};
use std::fmt;
use std::marker::Brand;
use std::sync::ledger::{Blank, Ledger};

/// How many openers the pairing of delimiter runs has looked at: one or more
/// for each emphasis, strong emphasis and strikethrough that it made, and for
/// each character of the runs at most two more than there are kinds of closers
/// (`looks_at_most`).
#[derive(Clone, Copy, Debug, PartialEq, Eq)]
pub struct Steps(pub u128);

/// Reads what follows the text between two places, and returns where that ends.
#[inline(always)]
fn read_on<L: Ledger>(
    rules: Rules,
    leaf: Leaf<'_>,
    reader: &mut Reader,
    text: (usize, usize),
    looks: &mut Looks<L>,
) -> Result<usize, InlineFault>
    requires reading { ReadingOf rules leaf text.0 reader.old }
    requires text { IsTextTo leaf.source.now text.0 text.1 }
    requires within { text.0 < length leaf.source.now }
    ensures reading { IfOk result (λ end. ReadingOf rules leaf.entry end reader.new) }
    ensures lines { OnOk result (reader.new.lines ≡ reader.old.lines) }
    ensures further { IfOk result (λ end. text.0 < end) }
    ensures deep { result ≡ Err InlinesTooDeep → IsTooDeep rules leaf.entry }
    ensures short { result ≢ Err SourceTooLong }
{
    let end = text.1;
    if end == leaf.source.len() {
        return Ok(end);
    }
    if leaf.source.as_bytes()[end] == b']' {
        return reader.close(rules, leaf, end);
    }
    let Leaf { source, alloc, .. } = leaf;
    Ok(read_atom(alloc, rules, source, end, reader, looks)?)
}

/// Reads a source to its end, in one pass, from the text at its start on, which ends at a place.
fn read_all<L: Ledger>(
    rules: Rules,
    leaf: Leaf<'_>,
    reader: &mut Reader,
    first: usize,
    looks: &mut Looks<L>,
) -> Result<(), InlineFault>
    requires text { IsTextTo leaf.source.now 0 first }
    requires start { ReadingOf rules leaf 0 reader.old }
    ensures reading { OnOk result (ReadingOf rules leaf.entry (length leaf.entry.source.now) reader.new) }
    ensures lines { OnOk result (reader.new.lines ≡ reader.old.lines) }
    ensures deep { result ≡ Err InlinesTooDeep → IsTooDeep rules leaf.entry }
    ensures short { result ≢ Err SourceTooLong }
{
    let mut text = (0, first);
    while text.0 < leaf.source.len() {
        let at = read_on(rules, leaf, reader, text, looks)?;
        text = (at, text_end(leaf.source, at));
    }
    Ok(())
}

/// The same for a caller that counts no looks.
#[inline(always)]
fn read_leaf<L: Ledger>(
    rules: Rules,
    leaf: Leaf<'_>,
    reader: &mut Reader,
    first: usize,
    blank: Blank,
) -> Result<(), InlineFault>
    requires text { IsTextTo leaf.source.now 0 first }
    requires start { ReadingOf rules leaf 0 reader.old }
    requires name { blank.name ≡ L.name }
    requires parts { blank.parts ≡ L.parts }
    requires some { 0 < blank.parts }
    ensures reading { OnOk result (ReadingOf rules leaf.entry (length leaf.entry.source.now) reader.new) }
    ensures lines { OnOk result (reader.new.lines ≡ reader.old.lines) }
    ensures deep { result ≡ Err InlinesTooDeep → IsTooDeep rules leaf.entry }
    ensures short { result ≢ Err SourceTooLong }
{
    let mut looks = Looks::<L>::start(blank);
    read_all(rules, leaf, reader, first, &mut looks)
}

/// Whether a source is nonempty and has none of the bytes that can start anything but text. Then it is
/// its own only inline, with all rules and whatever is defined. It takes no memory.
///
/// For other sources that become one text, such as `a!`, it returns false.
pub fn is_one_text(source: &str) -> bool
    ensures unmarked { result ≡ (not (is_empty source.now) && not (list_any is_marked source.now)) }
    ensures text { IsTrue result → (rules : Rules) (defined : Defined)
        → inlines.inlines_of rules defined source.now ≡ Text source.now ∷ [] }
{
    !source.is_empty() && next_marked(source.as_bytes(), 0) == source.len()
}

/// Where the text at the start of a source ends.
#[inline(always)]
fn first_text_end(source: &str) -> usize
    ensures text { IsTextTo source.now 0 result }
{
    text_end(source, 0)
}

/// Whether the text of a source is only separated by line feeds with no space before them. `first` is where
/// the text at its start ends. Then it is written unchanged, since a soft line break is written as a line
/// feed, and nothing in it is escaped.
fn is_all_text(source: &str, first: usize) -> bool
    requires { IsTextTo source.now 0 first }
    ensures text { IsTrue result → IsAllText source.now }
{
    let mut end = first;
    while end < source.len() {
        if source.as_bytes()[end] != b'\n' {
            return false;
        }
        end = text_end(source, end + 1);
    }
    true
}

/// Reads the inlines of leaves, one after another, in the same memory, and
/// takes more of it where a leaf needs more.
#[derive(Drop)]
pub struct InlineReader {
    reader: Reader,
    spare: Spare,
}

/// Its name alone: what it holds between leaves is memory.
impl fmt::Debug for InlineReader {
    fn fmt<W: fmt::Write>(&self, f: &mut fmt::Formatter<W>) -> fmt::Result {
        f.write_str("InlineReader")
    }
}

impl InlineReader {
    /// No leaf was read yet. It takes no memory.
    pub fn new(alloc: Global) -> InlineReader {
        InlineReader {
            reader: Reader::new(alloc),
            spare: Spare::new(alloc),
        }
    }

    /// Reads the marks of a source, from the text at its start on, and makes all pairs: nothing more is made
    /// of them. Returns how many openers were looked at. `lines` says whether line feeds are wanted as marks.
    fn read_marks(
        &mut self,
        rules: Rules,
        source: &str,
        definitions: &Definitions,
        limit: usize,
        first: usize,
        lines: bool,
    ) -> Result<Steps, InlineFault>
        requires { IsTextTo source.now 0 first }
        ensures settled { OnOk result (IsSettled lines source.now definitions.now self.new.reader) }
        ensures read { IfOk result (λ steps. Read rules (defined_in definitions.now) limit source.now
            (inlines_of (events_in source.now definitions.now self.new.reader), steps)) }
        ensures html { OnOk result
            ((write_all (page [] Tags) (events_in source.now definitions.now self.new.reader)).html
            ≡ inlines_html (inlines_of (events_in source.now definitions.now self.new.reader))) }
        ensures refused { IfErr result (λ fault. Refused fault rules definitions.now limit source.now) }
    {
        if source.len() > u32::MAX as usize {
            return Err(InlineFault::SourceTooLong);
        }
        let leaf = Leaf {
            source,
            definitions,
            limit,
            alloc: self.spare.alloc(),
        };
        let reader = &mut self.reader;
        reader.restart(source, lines);
        read_leaf::<Brand>(rules, leaf, reader, first, Blank::new(1))?;
        reader.runs.pair_from(0, limit)?;
        if nests_past(reader, limit) {
            return Err(InlineFault::InlinesTooDeep);
        }
        Ok(Steps(reader.runs.looks()))
    }

    /// The inlines of a leaf with this source, whose lines are separated by line feeds, in a document with
    /// these definitions, with these rules, and how many openers were looked at (CommonMark 0.31.2, chapter
    /// 6).
    ///
    /// # Errors
    ///
    /// `InlinesTooDeep` where the inlines nest deeper than the limit, `NoMemory` if a request for memory
    /// was refused, `SourceTooLong` where the source has 2^32 bytes or more. The next leaf is read all the
    /// same.
    pub fn inlines(
        &mut self,
        rules: Rules,
        source: &str,
        definitions: &Definitions,
        limit: usize,
    ) -> Result<(Items<Inline>, Steps), InlineFault>
        ensures reads { Reads result rules definitions.now limit source.now }
    {
        let first = first_text_end(source);
        let steps = self.read_marks(rules, source, definitions, limit, first, true)?;
        Ok((
            settle(&mut self.spare, source, definitions, &self.reader)?,
            steps,
        ))
    }

    /// The source of a leaf without markup (`is_one_text`) as its one inline.
    ///
    /// # Errors
    ///
    /// `AllocError` if a request for memory was refused.
    pub fn one_text(&mut self, source: &str) -> Result<Items<Inline>, AllocError>
        ensures text { IfOk result (λ inlines. inlines ≡ Text source.now ∷ []) }
    {
        self.spare.one_text(source)
    }

    /// Frees a block. The memory of its inlines is used for those that are read next.
    pub fn let_go(&mut self, block: Block) {
        self.spare.keep_block(block);
    }

    /// Adds the HTML of these inlines. It takes less time and memory than they
    /// do, since a text is written from the source.
    ///
    /// # Errors
    ///
    /// As `inlines`; a prefix of the HTML may have been added if a request for memory was refused.
    pub fn push_html(
        &mut self,
        html: &mut Pages,
        rules: Rules,
        source: &str,
        definitions: &Definitions,
        limit: usize,
    ) -> Result<(), InlineFault>
        ensures pushed { OnOk result (html.new ≡ html.old
            ++ inlines_html (inlines.inlines_of rules (defined_in definitions.now) source.now)) }
        ensures within { OnOk result
            (inlines.nests_past rules (defined_in definitions.now) limit source.now ≡ false) }
        ensures refused { IfErr result (λ fault. Refused fault rules definitions.now limit source.now) }
    {
        let first = first_text_end(source);
        if is_all_text(source, first) {
            html.push_str(source)?;
            return Ok(());
        }
        self.read_marks(rules, source, definitions, limit, first, false)?;
        push_marks(self.spare.alloc(), html, source, definitions, &self.reader)?;
        Ok(())
    }
}

/// The inlines of one leaf, with the rules of the standard.
///
/// # Errors
///
/// As `InlineReader::inlines`.
pub fn inlines(
    alloc: Global,
    source: &str,
    definitions: &Definitions,
    limit: usize,
) -> Result<(Items<Inline>, Steps), InlineFault>
    ensures reads { Reads result profile definitions.now limit source.now }
{
    inlines_by(alloc, Rules::profile(), source, definitions, limit)
}

/// The same with these rules.
pub fn inlines_by(
    alloc: Global,
    rules: Rules,
    source: &str,
    definitions: &Definitions,
    limit: usize,
) -> Result<(Items<Inline>, Steps), InlineFault>
    ensures reads { Reads result rules definitions.now limit source.now }
{
    InlineReader::new(alloc).inlines(rules, source, definitions, limit)
}
