//! A text on its way to a sink. Small pieces wait, so that they are written together.
ghost use Rattle.std.specs.Prelude.{◌≡◌, ◌+◌, ◌-◌, ◌^◌, ◌<◌, [], ◌++◌, length, flat_map};
ghost use Rattle.std.specs.Prelude.{true, false, IfOk, OnOk};
ghost use Rattle.cm_html.specs.steps.Pages.{Adds, WritesMore};

use crate::phrases::Phrases;
use cm_text::{Sink, WriteFailed, write_all};
use std::alloc::{AllocError, Global};

/// What is left to be written, and how much has been. It takes memory only when it is made.
#[derive(Drop)]
pub(crate) struct Outgoing {
    /// What is written with what comes next.
    waiting: Vec<u8>,
    /// How many bytes may wait.
    room: usize,
    /// How many bytes have been written.
    written: usize,
}

/// Writes a piece after `written` bytes. Returns the number of bytes written then.
fn write_piece<W: Sink>(sink: &mut W, written: usize, piece: &[u8]) -> Result<usize, WriteFailed>
    requires failed { (W.seen sink.old).failed < 2 ^ 64 - 1 }
    requires counted { written + length piece.now < 2 ^ 64 }
    ensures { WritesMore result written piece.now (W.seen sink.old) (W.seen sink.new) }
{
    match write_all(sink, piece) {
        Ok(()) => Ok(written + piece.len()),
        Err(failed) => Err(WriteFailed {
            written: written + failed.written,
        }),
    }
}

impl Outgoing {
    /// Nothing has been written. Up to `room` bytes may wait; if none may, that takes no memory.
    pub(crate) fn new(alloc: Global, room: usize) -> Result<Outgoing, AllocError>
        ensures waiting { IfOk result (λ out. out.waiting.items ≡ []) }
        ensures written { IfOk result (λ out. out.written ≡ 0) }
    {
        Ok(Outgoing {
            waiting: Vec::with_capacity(alloc, room)?,
            room,
            written: 0,
        })
    }

    /// Writes what waits, and returns how many bytes have been written.
    pub(crate) fn finish<W: Sink>(&self, sink: &mut W) -> Result<usize, WriteFailed>
        requires failed { (W.seen sink.old).failed < 2 ^ 64 - 1 }
        requires counted { self.now.written + length self.now.waiting.items < 2 ^ 64 }
        ensures { WritesMore result self.now.written self.now.waiting.items
            (W.seen sink.old) (W.seen sink.new) }
    {
        write_piece(sink, self.written, self.waiting.as_slice())
    }

    /// The same, where more comes next.
    fn flush<W: Sink>(&mut self, sink: &mut W) -> Result<(), WriteFailed>
        requires failed { (W.seen sink.old).failed < 2 ^ 64 - 1 }
        requires counted { self.old.written + length self.old.waiting.items < 2 ^ 64 }
        ensures adds { Adds result self.old self.new [] (W.seen sink.old) (W.seen sink.new) }
        ensures none { OnOk result (self.new.waiting.items ≡ []) }
    {
        self.written = write_piece(sink, self.written, self.waiting.as_slice())?;
        self.waiting.clear();
        Ok(())
    }

    /// Writes a piece, where nothing waits.
    fn write<W: Sink>(&mut self, sink: &mut W, piece: &[u8]) -> Result<(), WriteFailed>
        requires none { self.old.waiting.items ≡ [] }
        requires failed { (W.seen sink.old).failed < 2 ^ 64 - 1 }
        requires counted { self.old.written + length piece.now < 2 ^ 64 }
        ensures { Adds result self.old self.new piece.now (W.seen sink.old) (W.seen sink.new) }
    {
        self.written = write_piece(sink, self.written, piece)?;
        Ok(())
    }

    /// Puts a piece with what waits, if there is room for it.
    fn holds(&mut self, piece: &[u8]) -> bool
        ensures held { result ≡ true → self.new.waiting.items ≡ self.old.waiting.items ++ piece.now }
        ensures full { result ≡ false → self.new.waiting.items ≡ self.old.waiting.items }
        ensures written { self.new.written ≡ self.old.written }
    {
        if piece.is_empty() {
            return true;
        }
        let free = self.room.saturating_sub(self.waiting.len());
        piece.len() <= free && self.waiting.extend_from_slice(piece).is_ok()
    }

    /// Writes what waits. A piece then waits, or is written if it is too long for that.
    fn make_room<W: Sink>(&mut self, sink: &mut W, piece: &[u8]) -> Result<(), WriteFailed>
        requires failed { (W.seen sink.old).failed < 2 ^ 64 - 1 }
        requires counted { self.old.written + length (self.old.waiting.items ++ piece.now) < 2 ^ 64 }
        ensures { Adds result self.old self.new piece.now (W.seen sink.old) (W.seen sink.new) }
    {
        self.flush(sink)?;
        if self.holds(piece) {
            return Ok(());
        }
        self.write(sink, piece)
    }

    /// Adds a piece.
    #[inline(always)]
    pub(crate) fn add<W: Sink>(&mut self, sink: &mut W, piece: &[u8]) -> Result<(), WriteFailed>
        requires failed { (W.seen sink.old).failed < 2 ^ 64 - 1 }
        requires counted { self.old.written + length (self.old.waiting.items ++ piece.now) < 2 ^ 64 }
        ensures { Adds result self.old self.new piece.now (W.seen sink.old) (W.seen sink.new) }
    {
        if self.holds(piece) {
            return Ok(());
        }
        self.make_room(sink, piece)
    }

    /// Adds two pieces.
    fn add_both<W: Sink>(
        &mut self,
        sink: &mut W,
        first: &[u8],
        second: &[u8],
    ) -> Result<(), WriteFailed>
        requires failed { (W.seen sink.old).failed < 2 ^ 64 - 1 }
        requires counted { self.old.written
            + length (self.old.waiting.items ++ (first.now ++ second.now)) < 2 ^ 64 }
        ensures { Adds result self.old self.new (first.now ++ second.now)
            (W.seen sink.old) (W.seen sink.new) }
    {
        self.add(sink, first)?;
        self.add(sink, second)
    }

    /// Adds a text, with each phrase in the place of the byte that is held for it.
    pub(crate) fn add_text<K: Phrases, W: Sink>(
        &mut self,
        sink: &mut W,
        text: &[u8],
    ) -> Result<(), WriteFailed>
        requires failed { (W.seen sink.old).failed < 2 ^ 64 - 1 }
        requires counted { self.old.written
            + length (self.old.waiting.items ++ flat_map K.written text.now) < 2 ^ 64 }
        ensures { Adds result self.old self.new (flat_map K.written text.now)
            (W.seen sink.old) (W.seen sink.new) }
    {
        let mut rest = text;
        while let Some((at, phrase)) = K::first(rest) {
            let (before, after) = rest.split_at(at);
            match self.add_both(sink, before, phrase.as_bytes()) {
                Ok(()) => rest = &after[1..],
                Err(failed) => return Err(failed),
            }
        }
        self.add(sink, rest)
    }

    /// Adds two texts.
    pub(crate) fn add_texts<K: Phrases, W: Sink>(
        &mut self,
        sink: &mut W,
        first: &[u8],
        second: &[u8],
    ) -> Result<(), WriteFailed>
        requires failed { (W.seen sink.old).failed < 2 ^ 64 - 1 }
        requires counted { self.old.written
            + length (self.old.waiting.items ++ flat_map K.written (first.now ++ second.now)) < 2 ^ 64 }
        ensures { Adds result self.old self.new (flat_map K.written (first.now ++ second.now))
            (W.seen sink.old) (W.seen sink.new) }
    {
        self.add_text::<K, W>(sink, first)?;
        self.add_text::<K, W>(sink, second)
    }
}
