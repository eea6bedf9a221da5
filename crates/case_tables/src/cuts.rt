//! Where a text is cut into the pieces that are fed.
ghost use Rattle.std.specs.Prelude.{◌≡◌, ◌+◌, ◌-◌, ◌^◌, ◌<◌, is_ok, if◌then◌else◌};
ghost use Rattle.std.specs.Io.{ReadsAtMost};
ghost use Rattle.std.specs.Io.KnownBytes.{ReadConsumes};

use cm_text::{DeviceFailed, Pieces, Source};
use std::alloc::{AllocError, Global};
use std::{fmt, mem};

/// A longer text is not cut in two at each place.
const LONG: usize = 2_000;

/// Where a text is cut.
#[derive(Clone, Copy, Debug)]
pub enum Cut {
    Nowhere,
    AfterEachByte,
    AfterByte(usize),
    /// After each byte whose bit is set.
    AfterBytes(u16),
}

impl Cut {
    fn is_after(self, index: usize) -> bool {
        match self {
            Cut::Nowhere => false,
            Cut::AfterEachByte => true,
            Cut::AfterByte(byte) => byte == index,
            Cut::AfterBytes(bits) => index < 16 && (bits >> index) % 2 == 1,
        }
    }
}

impl fmt::Display for Cut {
    fn fmt<W: fmt::Write>(&self, f: &mut fmt::Formatter<W>) -> fmt::Result {
        match self {
            Cut::Nowhere => write!(f, "whole"),
            Cut::AfterEachByte => write!(f, "byte by byte"),
            Cut::AfterByte(byte) => write!(f, "cut after byte {byte}"),
            Cut::AfterBytes(bits) => write!(f, "cut after the bytes of {bits:#b}"),
        }
    }
}

/// The cuts of a text of this length: none, after each byte, each cut in two, and, for up to 8 bytes, each
/// cut.
pub fn cuts(alloc: Global, len: usize) -> Result<Vec<Cut>, AllocError> {
    let mut cuts = vec![in alloc; Cut::Nowhere, Cut::AfterEachByte]?;
    if len <= LONG {
        for byte in 0..len {
            cuts.push(Cut::AfterByte(byte))?;
        }
    }
    if len <= 8 {
        for bits in 0..1u16 << len {
            cuts.push(Cut::AfterBytes(bits))?;
        }
    }
    Ok(cuts)
}

/// The bytes in pieces, with an empty one at each cut.
pub fn pieces(alloc: Global, bytes: &[u8], cut: Cut) -> Result<Vec<Vec<u8>>, AllocError> {
    let mut pieces = Vec::new(alloc);
    let mut piece = Vec::new(alloc);
    for (index, b) in bytes.iter().enumerate() {
        piece.push(*b)?;
        if cut.is_after(index) {
            pieces.push(mem::replace(&mut piece, Vec::new(alloc)))?;
            pieces.push(Vec::new(alloc))?;
        }
    }
    pieces.push(piece)?;
    Ok(pieces)
}

/// A source of pieces, which then ends or fails, that counts the reads which are made of it.
#[derive(Drop)]
pub struct Counted {
    source: Pieces,
    reads: usize,
}

impl Counted {
    pub fn new(pieces: Vec<Vec<u8>>, fails: bool) -> Counted
        ensures { (⟦<Counted as Source>⟧.seen result).failed ≡ 0 }
    {
        Counted {
            source: Pieces::new(pieces, fails),
            reads: 0,
        }
    }

    pub fn reads(&self) -> usize {
        self.reads
    }
}

impl Source for Counted {
    ghost seen = { λ c. ⟦<Pieces as Source>⟧.seen c.source };

    fn read(&mut self, buf: &mut [u8]) -> Result<usize, DeviceFailed> {
        self.reads = self.reads.saturating_add(1);
        self.source.read(buf)
    }

    fn failures(&self) -> u64 {
        self.source.failures()
    }
}
