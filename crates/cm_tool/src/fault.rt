//! Faults, and the texts that report them.
ghost use Rattle.std.specs.Prelude.{◌≡◌, ◌+◌, ◌≤◌, ◌++◌, Some, length};
ghost use Rattle.cm_tool.specs.FaultLines.{fault_text, line_of};
ghost use Rattle.cm_tool.specs.steps.FaultParts.{parts_text};

use arrayvec::ArrayString;
use cm_block::BlockFault;
use cm_html::HtmlFault;
use cm_source::{SourceFault, Why};
use cm_text::{NoMemory, TextFault, WriteFailed};
use itoa::Buffer;
use std::alloc::AllocError;
use std::fmt;
use thiserror::Error;

/// The greatest number of bytes of a fault's line.
pub const LINE: usize = 126;

/// Why a task ends without its output. Its `Display` is what the program prints after `cmk: `.
#[derive(Clone, Copy, Debug, PartialEq, Eq, Drop, Error)]
pub enum Fault {
    /// The bytes aren't UTF-8; `at` is the length of their longest well-formed prefix.
    NotUtf8 { at: usize },
    /// There is a byte past the limit, which is `at`.
    TooLong { at: usize },
    /// The line, counted from 1, is inside more quotes and items than the limit.
    BlocksTooDeep { line: u128 },
    /// The inlines of the leaf, counted from 1, nest deeper than the limit.
    InlinesTooDeep { leaf: usize },
    /// A request for memory was refused.
    NoMemory,
    /// The reader failed, or the file couldn't be opened.
    ReadFailed,
    /// The writer failed, or accepted no byte of a nonempty piece, after it had accepted `written` bytes.
    WriteFailed { written: usize },
    /// The tree can't be spelled as plain source.
    Unspellable { why: Why },
    /// The example whose opening line, counted from 1, is this isn't closed.
    BadExampleFile { line: usize },
    /// The example, counted from 1, is the first whose output differs from its expected HTML.
    ExampleDiffers { number: usize },
}

/// The parts of a fault's text: words, perhaps a number, and more words.
#[derive(Clone, Copy, Debug)]
struct Parts {
    front: &'static str,
    number: Option<u128>,
    beyond: &'static str,
}

impl Fault {
    /// The parts of its text.
    fn parts(&self) -> Parts
        ensures text { parts_text result ≡ fault_text self.now }
        ensures short { length result.front.now + length result.beyond.now ≤ 80 }
    {
        let (front, number, beyond) = match *self {
            Fault::NotUtf8 { at } => ("F1 not UTF-8 at byte ", Some(at as u128), ""),
            Fault::TooLong { at } => ("F2 input too long at byte ", Some(at as u128), ""),
            Fault::BlocksTooDeep { line } => ("F3 blocks too deep on line ", Some(line), ""),
            Fault::InlinesTooDeep { leaf } => {
                ("F4 inlines too deep in leaf ", Some(leaf as u128), "")
            }
            Fault::NoMemory => ("F5 out of memory", None, ""),
            Fault::ReadFailed => ("F6 read failed", None, ""),
            Fault::WriteFailed { written } => {
                ("F7 write failed after ", Some(written as u128), " bytes")
            }
            Fault::Unspellable { why } => ("F8 cannot be spelled: ", None, why.text()),
            Fault::BadExampleFile { line } => {
                ("F9 bad example file at line ", Some(line as u128), "")
            }
            Fault::ExampleDiffers { number } => ("F10 example ", Some(number as u128), " differs"),
        };
        Parts {
            front,
            number,
            beyond,
        }
    }

    /// Appends its text to a line.
    fn push_text(&self, line: &mut ArrayString<LINE>)
        requires { length line.old.bytes ≤ 5 }
        ensures text { line.new.bytes ≡ line.old.bytes ++ fault_text self.now }
        ensures short { length line.new.bytes ≤ 125 }
    {
        let Parts {
            front,
            number,
            beyond,
        } = self.parts();
        line.push_str(front);
        if let Some(number) = number {
            line.push_str(Buffer::new().format(number));
        }
        line.push_str(beyond);
    }

    /// The line that the program prints for it: `cmk: `, its text and a line feed. It takes no memory.
    pub fn line(&self) -> ArrayString<LINE>
        ensures { result.bytes ≡ line_of (fault_text self.now) }
    {
        let mut line = ArrayString::new();
        line.push_str("cmk: ");
        self.push_text(&mut line);
        line.push_str("\n");
        line
    }
}

impl fmt::Display for Fault {
    ghost output = { λ fault. Some (fault_text fault) };

    fn fmt<W: fmt::Write>(&self, f: &mut fmt::Formatter<W>) -> fmt::Result {
        let mut text = ArrayString::new();
        self.push_text(&mut text);
        f.write_str(text.as_str())
    }
}

impl From<TextFault> for Fault {
    ghost use Rattle.std.specs.Prelude.{◌≡◌};
    ghost use Rattle.cm_tool.specs.ToldFaults.{told};

    ghost from_gives = { λ fault e. e ≡ told fault };

    fn from(fault: TextFault) -> Fault {
        match fault {
            TextFault::NotUtf8 { at } => Fault::NotUtf8 { at },
            TextFault::TooLong { at } => Fault::TooLong { at },
            TextFault::NoMemory => Fault::NoMemory,
        }
    }
}

impl From<BlockFault> for Fault {
    ghost use Rattle.std.specs.Prelude.{◌≡◌};
    ghost use Rattle.cm_tool.specs.ToldFaults.{refused};

    ghost from_gives = { λ fault e. e ≡ refused fault };

    fn from(fault: BlockFault) -> Fault {
        match fault {
            BlockFault::BlocksTooDeep { line } => Fault::BlocksTooDeep { line },
            BlockFault::NoMemory => Fault::NoMemory,
        }
    }
}

impl From<AllocError> for Fault {
    ghost use Rattle.std.specs.Prelude.{◌≡◌};
    ghost use Rattle.cm_tool.specs.declared.fault.Fault.TheVariants.{NoMemory};

    ghost from_gives = { λ _ e. e ≡ NoMemory };

    fn from(_: AllocError) -> Fault {
        Fault::NoMemory
    }
}

impl From<NoMemory> for Fault {
    ghost use Rattle.std.specs.Prelude.{◌≡◌};
    ghost use Rattle.cm_tool.specs.declared.fault.Fault.TheVariants.{NoMemory};

    ghost from_gives = { λ _ e. e ≡ NoMemory };

    fn from(_: NoMemory) -> Fault {
        Fault::NoMemory
    }
}

impl From<WriteFailed> for Fault {
    ghost use Rattle.std.specs.Prelude.{◌≡◌};
    ghost use Rattle.cm_tool.specs.declared.fault.Fault.TheVariants as faults;

    ghost from_gives = { λ failed e. e ≡ faults.WriteFailed failed.written };

    fn from(failed: WriteFailed) -> Fault {
        Fault::WriteFailed {
            written: failed.written,
        }
    }
}

impl From<HtmlFault> for Fault {
    ghost use Rattle.std.specs.Prelude.{◌≡◌};
    ghost use Rattle.cm_tool.specs.ToldFaults.{unwritten};

    ghost from_gives = { λ fault e. e ≡ unwritten fault };

    fn from(fault: HtmlFault) -> Fault {
        match fault {
            HtmlFault::NoMemory => Fault::NoMemory,
            HtmlFault::WriteFailed { written } => Fault::WriteFailed { written },
        }
    }
}

impl From<SourceFault> for Fault {
    ghost use Rattle.std.specs.Prelude.{◌≡◌};
    ghost use Rattle.cm_tool.specs.ToldFaults.{unspelled};

    ghost from_gives = { λ fault e. e ≡ unspelled fault };

    fn from(fault: SourceFault) -> Fault {
        match fault {
            SourceFault::NoMemory => Fault::NoMemory,
            SourceFault::Unspellable { why } => Fault::Unspellable { why },
        }
    }
}

impl From<Why> for Fault {
    ghost use Rattle.std.specs.Prelude.{◌≡◌};
    ghost use Rattle.cm_tool.specs.declared.fault.Fault.TheVariants.{Unspellable};

    ghost from_gives = { λ why e. e ≡ Unspellable why };

    fn from(why: Why) -> Fault {
        Fault::Unspellable { why }
    }
}
