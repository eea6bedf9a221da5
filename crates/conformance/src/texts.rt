//! Whole texts: their HTML, their listing and their fault, in every cut, and with readers and writers that
//! fail.

use crate::examples::FENCE;
use crate::runs::{Page, READ, SHORT, Space, ample, answered, in_memory, ran, text_read};
use case_tables::cases::Case;
use case_tables::cuts::{Cut, cuts, pieces};
use case_tables::dialects::rules_of;
use case_tables::trouble::{Trouble, same, wrong};
use cm_html::{html, listing};
use cm_text::Limits;
use cm_tool::{Fault, Job, Parser, Task};
use cm_tree::{Doc, block_depth};
use std::alloc::{AllocError, Global};

/// The report of a file without examples.
const NO_EXAMPLES: &[u8] = b"0 of 0 agree\n";

/// The start of the line about it.
const NONE_FOUND: &str = "cmk: no example found; an example starts with the line ";

/// The jobs that `run` does on a text.
const JOBS: [Job; 5] = [
    Job::Render,
    Job::Tree,
    Job::TreeJson,
    Job::Rewrite,
    Job::Examples,
];

/// How a text is tried.
#[derive(Clone, Copy, Debug)]
pub(crate) enum Tries {
    /// Once: whole, as `run` renders and lists it.
    Once,
    /// By each call, in each cut, and with readers and writers that fail.
    InAllWays,
}

/// The expected result of a text.
#[derive(Clone, Copy, Debug)]
pub(crate) enum Outcome<'a> {
    /// A document with this HTML and this listing, each where the table has it.
    Document {
        html: Option<&'a [u8]>,
        listing: Option<&'a str>,
    },
    /// The fault with this line. It is reported as soon as the bytes are there, or only at the end.
    Fault {
        line: &'a str,
        is_late: bool,
    },
}

/// A text, and its expected result with these limits.
#[derive(Drop)]
pub(crate) struct Text<'a> {
    pub(crate) alloc: Global,
    pub(crate) input: &'a [u8],
    pub(crate) limits: Limits,
    /// Whether the reader fails after the text.
    pub(crate) fails: bool,
    /// How many reads are made where the text comes byte by byte.
    pub(crate) reads: Option<usize>,
    pub(crate) depth: Option<usize>,
    pub(crate) outcome: Outcome<'a>,
}

/// What the parser returns for a piece.
fn fed(parser: &mut Parser, piece: &[u8]) -> Result<(), Fault> {
    parser.feed(piece)
}

/// What the parser returns at the end.
fn finished(parser: Parser) -> Result<Doc, Fault> {
    parser.finish()
}

/// Whether a fault is one of the bytes of a text, or of its reader.
fn is_of_bytes(line: &str) -> bool {
    line.starts_with("F1 ") || line.starts_with("F2 ") || line.starts_with("F6 ")
}

impl Text<'_> {
    /// Whether the text has no opening line of an example.
    fn has_no_examples(&self) -> bool {
        let mut windows = self.input.windows(FENCE.len().max(1));
        !windows.any(|bytes| bytes == FENCE.as_bytes())
    }

    /// The whole output of the job, where the table has it: a text is a file of examples too.
    fn whole(&self, job: Job) -> Option<&[u8]> {
        match (self.outcome, job) {
            (Outcome::Document { html, .. }, Job::Render) => html,
            (Outcome::Document { listing, .. }, Job::Tree) => Some(listing?.as_bytes()),
            (Outcome::Document { .. }, Job::TreeJson | Job::Rewrite) => None,
            (Outcome::Document { .. }, Job::Examples) if self.has_no_examples() => {
                Some(NO_EXAMPLES)
            }
            (Outcome::Document { .. }, Job::Examples) => None,
            (Outcome::Fault { line, .. }, Job::Examples) if !is_of_bytes(line) => None,
            (Outcome::Fault { .. }, _) => Some(b""),
        }
    }

    /// What is reported if this number of bytes of the output is taken: the fault, or nothing.
    fn told(&self, whole: &[u8], taken: usize) -> Result<String, AllocError> {
        match self.outcome {
            Outcome::Fault { line, .. } => String::from_str(self.alloc, line),
            _ if taken < whole.len() => {
                format!(in self.alloc; "F7 write failed after {taken} bytes")
            }
            _ => Ok(String::new(self.alloc)),
        }
    }

    /// What should be written to the errors: the line of the fault, or that there is no example.
    fn errors(&self, job: Job, told: &str) -> Result<String, AllocError> {
        match job {
            _ if !told.is_empty() => format!(in self.alloc; "cmk: {told}\n"),
            Job::Examples => format!(in self.alloc; "{NONE_FOUND}{FENCE} example\n"),
            _ => Ok(String::new(self.alloc)),
        }
    }

    /// Checks that the job, as the program runs it, gives the expected result with the expected number of
    /// reads.
    fn runs(&self, job: Job, cut: Cut, space: Space) -> Result<(), Trouble> {
        let Some(whole) = self.whole(job) else {
            return Ok(());
        };
        let alloc = self.alloc;
        let taken = space.taken(whole.len());
        let told = self.told(whole, taken)?;
        let task = Task {
            job,
            file: None,
            limits: self.limits,
        };
        let input = (pieces(alloc, self.input, cut)?, self.fails);
        let ran = ran(alloc, &task, input, (space, ample(0)))?;
        let is_well = told.is_empty();
        let line = self.errors(job, &told)?;
        same(alloc, "errors", line.as_bytes(), ran.errors.taken())?;
        let front = whole.get(..taken).unwrap_or(whole);
        same(alloc, "output", front, ran.output.taken())?;
        if (ran.status == 0) != is_well || ran.status > 1 {
            return Err(wrong(alloc, "the exit status is wrong"));
        }
        self.has_reads(cut, ran.reads)
    }

    /// Checks that a call of the library does the job with the expected result and number of reads.
    fn answers(&self, job: Job, page: &Page, cut: Cut, space: Space) -> Result<(), Trouble> {
        let Some(whole) = self.whole(job) else {
            return Ok(());
        };
        let alloc = self.alloc;
        let taken = space.taken(whole.len());
        let told = self.told(whole, taken)?;
        let (answer, len) = match page.answer {
            Ok(len) => (String::new(alloc), len),
            Err(fault) => (format!(in alloc; "{fault}")?, whole.len()),
        };
        same(alloc, "fault", told.as_bytes(), answer.as_bytes())?;
        let front = whole.get(..taken).unwrap_or(whole);
        same(alloc, "output", front, page.output.taken())?;
        if len != whole.len() {
            return Err(wrong(alloc, "the length told is wrong"));
        }
        self.has_reads(cut, page.reads)
    }

    /// Checks the number of reads.
    fn has_reads(&self, cut: Cut, reads: usize) -> Result<(), Trouble> {
        match (cut, self.reads) {
            (Cut::AfterEachByte, Some(wanted)) if reads != wanted => {
                Err(wrong(self.alloc, "the number of reads is wrong"))
            }
            _ => Ok(()),
        }
    }

    /// Checks the results of `convert` and `rewrite`.
    fn converts(&self, cut: Cut, space: Space) -> Result<(), Trouble> {
        for job in [Job::Render, Job::Rewrite] {
            let input = (pieces(self.alloc, self.input, cut)?, self.fails);
            let page = answered(self.alloc, job, self.limits, input, space)?;
            self.answers(job, &page, cut, space)?;
        }
        Ok(())
    }

    /// The text of the bytes, if they are UTF-8, with U+FFFD for U+0000.
    fn text(&self) -> Result<Vec<u8>, Trouble> {
        let mut text = Vec::new(self.alloc);
        for b in self.input {
            match *b {
                0 => text.extend_from_slice("\u{FFFD}".as_bytes())?,
                b => text.push(b)?,
            }
        }
        Ok(text)
    }

    /// Checks that `read_text` returns the text, or its fault, if that is one of the bytes or of the reader.
    fn is_text(&self, cut: Cut) -> Result<(), Trouble> {
        let alloc = self.alloc;
        let input = (pieces(alloc, self.input, cut)?, self.fails);
        let (answer, reads) = text_read(alloc, self.limits, input);
        let told = match &answer {
            Ok(text) => {
                same(alloc, "text", self.text()?.as_slice(), text.as_bytes())?;
                String::new(alloc)
            }
            Err(fault) => format!(in alloc; "{fault}")?,
        };
        match self.outcome {
            Outcome::Fault { line, .. } if is_of_bytes(line) => {
                same(alloc, "fault of the text", line.as_bytes(), told.as_bytes())?;
                self.has_reads(cut, reads)
            }
            Outcome::Fault { .. } => Ok(()),
            Outcome::Document { .. } => same(alloc, "fault of the text", b"", told.as_bytes()),
        }
    }

    /// Feeds the pieces to the parser, and returns the first fault, which each further call has to return.
    fn feed(&self, parser: &mut Parser, cut: Cut) -> Result<Option<Fault>, Trouble> {
        let mut first = None;
        for piece in &pieces(self.alloc, self.input, cut)? {
            match (fed(parser, piece.as_slice()), first) {
                (Ok(()), None) => {}
                (Err(fault), None) => first = Some(fault),
                (Err(fault), Some(told)) if fault == told => {}
                _ => return Err(wrong(self.alloc, "the parser forgets its fault")),
            }
        }
        Ok(first)
    }

    /// Checks that a document is the expected one.
    fn is_document(&self, doc: &Doc) -> Result<(), Trouble> {
        if let Some(whole) = self.whole(Job::Render) {
            let written = html(self.alloc, doc)?;
            same(self.alloc, "HTML", whole, written.as_bytes())?;
        }
        if let Some(whole) = self.whole(Job::Tree) {
            let written = listing(self.alloc, doc)?;
            same(self.alloc, "listing", whole, written.as_bytes())?;
        }
        match self.depth {
            Some(depth) if block_depth(doc.blocks.as_slice()) != depth => {
                Err(wrong(self.alloc, "the depth is wrong"))
            }
            _ => Ok(()),
        }
    }

    /// Checks that the parser gives the expected result.
    fn parses(&self, cut: Cut) -> Result<(), Trouble> {
        let alloc = self.alloc;
        let mut parser = Parser::new(alloc, self.limits);
        let first = self.feed(&mut parser, cut)?;
        match finished(parser) {
            Ok(doc) => self.is_document(&doc),
            Err(fault) => self.is_fault(first, fault),
        }
    }

    /// Checks that the fault at the end is the expected one, and was returned first when it should be.
    fn is_fault(&self, first: Option<Fault>, fault: Fault) -> Result<(), Trouble> {
        let alloc = self.alloc;
        let told = format!(in alloc; "{fault}")?;
        let (line, is_late) = match self.outcome {
            Outcome::Fault { line, is_late } => (line, is_late),
            Outcome::Document { .. } => ("", false),
        };
        let what = "fault of the parser";
        same(alloc, what, line.as_bytes(), told.as_bytes())?;
        if first != (if is_late { None } else { Some(fault) }) {
            return Err(wrong(alloc, "the fault is told too early or too late"));
        }
        Ok(())
    }

    /// Checks that all calls give the expected results for the text, cut like this.
    fn is_read(&self, cut: Cut) -> Result<(), Trouble> {
        for job in JOBS {
            let len = self.whole(job).map_or(0, |whole| whole.len());
            self.runs(job, cut, ample(len))?;
        }
        let len = self.whole(Job::Render).map_or(0, |whole| whole.len());
        self.converts(cut, ample(len))?;
        self.is_text(cut)?;
        if self.fails {
            return Ok(());
        }
        self.parses(cut)
    }

    /// Checks that each call reports how much was written if writes fail.
    fn is_written(&self, job: Job) -> Result<(), Trouble> {
        let len = self.whole(job).map_or(0, |whole| whole.len());
        if len > SHORT {
            return Ok(());
        }
        for capacity in 0..len.saturating_add(1) {
            for at_most in [0, 1, 3, SHORT] {
                let space = Space { capacity, at_most };
                self.runs(job, Cut::Nowhere, space)?;
                if job == Job::Render {
                    self.converts(Cut::Nowhere, space)?;
                }
            }
        }
        Ok(())
    }

    /// Whether the text has no fault, or one that no bytes settle.
    fn is_unsettled(&self) -> bool {
        match self.outcome {
            Outcome::Document { .. } => true,
            Outcome::Fault { is_late, .. } => is_late,
        }
    }

    /// Checks that a failed read is reported if the reader fails after any byte of a text that has no settled
    /// fault, and that no read is made after it.
    fn fails_at_each_place(&self) -> Result<(), Trouble> {
        if self.fails || self.input.len() > READ || !self.is_unsettled() {
            return Ok(());
        }
        for place in 0..self.input.len().saturating_add(1) {
            Text {
                alloc: self.alloc,
                input: self.input.get(..place).unwrap_or(self.input),
                limits: self.limits,
                fails: true,
                reads: Some(place.saturating_add(1)),
                depth: None,
                outcome: Outcome::Fault {
                    line: "F6 read failed",
                    is_late: false,
                },
            }
            .is_read(Cut::AfterEachByte)?;
        }
        Ok(())
    }

    /// Checks that what is made of the text in memory is what the job gives.
    fn is_in_memory(&self, job: Job) -> Result<(), Trouble> {
        let Some(whole) = self.whole(job) else {
            return Ok(());
        };
        let alloc = self.alloc;
        let told = self.told(whole, whole.len())?;
        let (made, line) = match in_memory(alloc, job, self.input, self.limits) {
            Ok(made) => (made, String::new(alloc)),
            Err(fault) => (String::new(alloc), format!(in alloc; "{fault}")?),
        };
        same(alloc, "fault in memory", told.as_bytes(), line.as_bytes())?;
        same(alloc, "output in memory", whole, made.as_bytes())
    }

    /// Checks that the result is as expected, however the text is cut, however much of the output is taken,
    /// and wherever the reader fails.
    fn agrees_in_cuts(&self) -> Result<(), Trouble> {
        for cut in &cuts(self.alloc, self.input.len())? {
            match self.is_read(*cut) {
                Err(Trouble::Told(text)) => {
                    return Err(Trouble::Told(format!(in self.alloc; "{text}(read {cut})\n")?));
                }
                answer => answer?,
            }
        }
        if !self.fails {
            self.is_in_memory(Job::Render)?;
            self.is_in_memory(Job::Tree)?;
        }
        self.is_written(Job::Render)?;
        self.is_written(Job::Tree)?;
        self.is_written(Job::Examples)?;
        self.fails_at_each_place()
    }

    /// Checks that the whole text is rendered and listed as its table says.
    fn agrees_once(&self) -> Result<(), Trouble> {
        for job in [Job::Render, Job::Tree] {
            let len = self.whole(job).map_or(0, |whole| whole.len());
            self.runs(job, Cut::Nowhere, ample(len))?;
        }
        Ok(())
    }

    /// The listing of the document, where the text comes whole.
    fn listed(&self) -> Result<String, Trouble> {
        let mut parser = Parser::new(self.alloc, self.limits);
        let _ = fed(&mut parser, self.input);
        match finished(parser) {
            Ok(doc) => Ok(listing(self.alloc, &doc)?),
            Err(fault) => Err(Trouble::Told(format!(in self.alloc; "{fault}\n")?)),
        }
    }

    /// Checks that the result is as expected in each try, and that all cuts give one tree if the table has
    /// none.
    pub(crate) fn agrees(&self, tries: Tries) -> Result<(), Trouble> {
        if let Tries::Once = tries {
            return self.agrees_once();
        }
        let Outcome::Document {
            html,
            listing: None,
        } = self.outcome
        else {
            return self.agrees_in_cuts();
        };
        let listing = self.listed()?;
        let listing = Some(listing.as_str());
        Text {
            alloc: self.alloc,
            input: self.input,
            limits: self.limits,
            fails: self.fails,
            reads: self.reads,
            depth: self.depth,
            outcome: Outcome::Document { html, listing },
        }
        .agrees_in_cuts()
    }
}

const PARTS: [&str; 11] = [
    "input", "bytes", "blocks", "inlines", "rules", "fails", "reads", "depth", "html", "tree",
    "fault",
];

/// The limits of a case: the standard ones but for what it names.
fn limits_of(alloc: Global, case: &Case) -> Result<Limits, Trouble> {
    let standard = Limits::standard();
    let bytes = case.number("bytes")?.unwrap_or(standard.bytes());
    let blocks = case.number("blocks")?.unwrap_or(standard.blocks());
    let inlines = case.number("inlines")?.unwrap_or(standard.inlines());
    let rules = rules_of(alloc, case.rest("rules").unwrap_or("profile"))?;
    match Limits::new(bytes, blocks, inlines) {
        Some(limits) => Ok(limits.with_rules(rules)),
        None => Err(wrong(alloc, "the limits are out of range")),
    }
}

/// The outcome that a case names.
fn outcome_of<'a>(
    alloc: Global,
    case: &'a Case,
    html: Option<&'a [u8]>,
) -> Result<Outcome<'a>, Trouble> {
    let listing = case.lines("tree");
    match case.rest("fault") {
        None if html.is_some() || listing.is_some() => Ok(Outcome::Document { html, listing }),
        Some(line) if html.is_none() && listing.is_none() => {
            let (line, is_late) = match line.strip_suffix(", at the end") {
                Some(line) => (line, true),
                None => (line, false),
            };
            Ok(Outcome::Fault { line, is_late })
        }
        _ => Err(wrong(alloc, "a case of a text names no outcome, or two")),
    }
}

/// Checks that a text gives what its case expects.
pub(crate) fn agrees(alloc: Global, tries: Tries, case: &Case) -> Result<(), Trouble> {
    case.has_only(&PARTS)?;
    let input = case.bytes("input")?.unwrap_or(Vec::new(alloc));
    let html = case.bytes("html")?;
    let html = html.as_ref().map(|html| html.as_slice());
    Text {
        alloc,
        input: input.as_slice(),
        limits: limits_of(alloc, case)?,
        fails: case.has("fails"),
        reads: case.number("reads")?,
        depth: case.number("depth")?,
        outcome: outcome_of(alloc, case, html)?,
    }
    .agrees(tries)
}
