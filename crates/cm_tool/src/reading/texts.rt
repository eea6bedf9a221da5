//! Reading a source to its end as a text.
//!
//! The bytes also go through a feed, so that the same proved code finds their faults, and as early. The cost
//! is that lines are made that nobody uses.
ghost use Rattle.std.specs.Prelude.{◌≡◌, ℕ, ◌-◌, ◌^◌, ◌<◌, ◌≤◌, List, IfOk, IfErr, None, string_bytes, ⊤};
ghost use Rattle.std.specs.Io.KnownBytes.{Consumes};
ghost use Rattle.cm_text.specs.Feed.{count};
ghost use Rattle.cm_text.specs.Limits.{LimitsView};
ghost use Rattle.cm_text.specs.Lines.{text_of};
ghost use Rattle.cm_tool.specs.Parsing.{TellsFault};
ghost use Rattle.cm_tool.specs.Reading.{ReadsText, settled_of_text, fault_of_text};
ghost use Rattle.cm_tool.specs.steps.Texts.{HasGathered};

use crate::fault::Fault;
use crate::reading::taking_in::{TakesBytes, take_all};
use cm_text::{Limits, LineBuffer, Source, text_of};
use std::alloc::Global;
use std::marker::Model;

/// The bytes of a text that is read in pieces. The feed only finds faults, and its lines are ignored.
#[derive(Drop)]
struct TextBytes {
    feed: LineBuffer,
    bytes: Vec<u8>,
}

impl Model for TextBytes {
    ghost use Rattle.std.specs.Prelude.{◌≡◌, false, None};
    ghost use Rattle.cm_text.specs.Feed.{Goes};
    ghost use Rattle.cm_tool.specs.steps.Texts.{TextSoFar};

    ghost Value = { TextSoFar };

    ghost view = { λ t. record { feed = t.feed; bytes = t.bytes.items } };

    ghost invariant = { λ t. (t.feed.ended ≡ false) × (t.feed.fault ≡ None → Goes t.feed t.bytes.items 0) };
}

impl TextBytes {
    /// The text of the bytes so far.
    fn text(self, alloc: Global) -> Result<String, Fault>
        ensures text { IfOk result (λ text. (limits : LimitsView) (bytes : List ℕ)
            → HasGathered limits self bytes
            → (fault_of_text limits bytes ≡ None) × (string_bytes text ≡ text_of bytes)) }
        ensures told { IfErr result (λ fault. (limits : LimitsView) (bytes : List ℕ)
            → HasGathered limits self bytes → TellsFault fault (fault_of_text limits bytes)) }
    {
        let TextBytes { mut feed, bytes } = self;
        feed.end()?;
        Ok(text_of(alloc, &String::from_utf8(bytes).unwrap())?)
    }
}

impl TakesBytes for TextBytes {
    ghost has_taken_in = { λ limits text bytes. HasGathered limits text bytes };

    ghost was_given = { λ _ _. ⊤ };

    ghost settled = { settled_of_text };

    ghost left = { λ text. text.feed.limit - count text.feed };

    fn take(&mut self, piece: &[u8]) -> Result<(), Fault> {
        self.bytes.extend_from_slice(piece)?;
        self.feed.push(piece)?;
        Ok(())
    }
}

/// Reads a source to its end and returns its text, in which U+0000 has become U+FFFD.
///
/// The only faults of a text that it reports are that the bytes aren't UTF-8, or are too many. A fault that
/// the bytes settle ends the reading: no read is made after it. So does a failed read.
pub fn read_text<R: Source>(alloc: Global, source: &mut R, limits: Limits) -> Result<String, Fault>
    requires { (R.seen source.old).failed < 2 ^ 64 - 1 }
    ensures { (bytes : List ℕ) × Consumes (R.seen source.old).remaining (R.seen source.new).remaining bytes
        × ReadsText result limits bytes (R.seen source.old) (R.seen source.new) }
{
    let mut text = TextBytes {
        feed: LineBuffer::new(alloc, limits),
        bytes: Vec::new(alloc),
    };
    take_all(alloc, source, &mut text)?;
    text.text(alloc)
}
