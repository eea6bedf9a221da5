//! Faults as numbers.
//!
//! A line has 64 bits here and 128 in `Fault`, since a source may have any number of bytes. A text within the
//! limits is proved to have few enough lines.
ghost use Rattle.std.specs.Prelude.{◌≡◌, option_map};
ghost use Rattle.cm_tool.specs.declared.fault.Fault.TheVariants.{Unspellable};
ghost use Rattle.cmk_c.specs.steps.Places.{HasPlace};
ghost use Rattle.cmk_c.specs.Numbers.{number_of, place_of, reason_of, why_numbered, fault_numbered};

use cm_source::Why;
use cm_tool::Fault;

/// There is no fault.
pub(crate) const DONE: u32 = 0;

/// A number that was passed is out of its range.
pub(crate) const OUT_OF_RANGE: u32 = 11;

/// The caller's room is too small.
pub(crate) const NO_ROOM: u32 = 12;

/// The number of a fault, as its line has it after its F.
pub(crate) fn number_of(fault: Fault) -> u32
    ensures { result ≡ number_of fault }
{
    match fault {
        Fault::NotUtf8 { .. } => 1,
        Fault::TooLong { .. } => 2,
        Fault::BlocksTooDeep { .. } => 3,
        Fault::InlinesTooDeep { .. } => 4,
        Fault::NoMemory => 5,
        Fault::ReadFailed => 6,
        Fault::WriteFailed { .. } => 7,
        Fault::Unspellable { .. } => 8,
        Fault::BadExampleFile { .. } => 9,
        Fault::ExampleDiffers { .. } => 10,
    }
}

/// The number of a reason why a tree can't be spelled.
fn reason_of(why: Why) -> usize
    ensures { result ≡ reason_of why }
{
    match why {
        Why::Definition => 1,
        Why::Nul => 2,
        Why::Shape => 3,
        Why::Text => 4,
        Why::EmphasisNested => 5,
        Why::EmphasisTouching => 6,
        Why::EmphasisEdge => 7,
        Why::CodeSpan => 8,
        Why::RawHtml => 9,
        Why::LinkInLink => 10,
        Why::LineBreak => 11,
        Why::CodeText => 12,
        Why::HtmlBlock => 13,
        Why::AdjacentLists => 14,
        Why::ItemBeginsWithList => 15,
        Why::Looseness => 16,
        Why::StrikeOff => 17,
        Why::AddressOff => 18,
        Why::InfoOff => 19,
    }
}

/// The place of a fault: a byte, a line or a leaf, or the number of a reason.
pub(crate) fn place_of(fault: Fault) -> usize
    requires { HasPlace fault }
    ensures { result ≡ place_of fault }
{
    match fault {
        Fault::NotUtf8 { at } => at,
        Fault::TooLong { at } => at,
        Fault::BlocksTooDeep { line } => line as usize,
        Fault::InlinesTooDeep { leaf } => leaf,
        Fault::NoMemory => 0,
        Fault::ReadFailed => 0,
        Fault::WriteFailed { written } => written,
        Fault::Unspellable { why } => reason_of(why),
        Fault::BadExampleFile { line } => line,
        Fault::ExampleDiffers { number } => number,
    }
}

/// The reason with this number.
fn why_numbered(number: usize) -> Option<Why>
    ensures { result ≡ why_numbered number }
{
    match number {
        1 => Some(Why::Definition),
        2 => Some(Why::Nul),
        3 => Some(Why::Shape),
        4 => Some(Why::Text),
        5 => Some(Why::EmphasisNested),
        6 => Some(Why::EmphasisTouching),
        7 => Some(Why::EmphasisEdge),
        8 => Some(Why::CodeSpan),
        9 => Some(Why::RawHtml),
        10 => Some(Why::LinkInLink),
        11 => Some(Why::LineBreak),
        12 => Some(Why::CodeText),
        13 => Some(Why::HtmlBlock),
        14 => Some(Why::AdjacentLists),
        15 => Some(Why::ItemBeginsWithList),
        16 => Some(Why::Looseness),
        17 => Some(Why::StrikeOff),
        18 => Some(Why::AddressOff),
        19 => Some(Why::InfoOff),
        _ => None,
    }
}

/// The fault that the tree can't be spelled, for the reason with this number.
fn unspellable(reason: usize) -> Option<Fault>
    ensures { result ≡ option_map Unspellable (why_numbered reason) }
{
    match why_numbered(reason) {
        Some(why) => Some(Fault::Unspellable { why }),
        None => None,
    }
}

/// The fault with this number at this place.
pub(crate) fn fault_numbered(number: u32, place: usize) -> Option<Fault>
    ensures { result ≡ fault_numbered number place }
{
    match number {
        1 => Some(Fault::NotUtf8 { at: place }),
        2 => Some(Fault::TooLong { at: place }),
        3 => Some(Fault::BlocksTooDeep {
            line: place as u128,
        }),
        4 => Some(Fault::InlinesTooDeep { leaf: place }),
        5 => Some(Fault::NoMemory),
        6 => Some(Fault::ReadFailed),
        7 => Some(Fault::WriteFailed { written: place }),
        8 => unspellable(place),
        9 => Some(Fault::BadExampleFile { line: place }),
        10 => Some(Fault::ExampleDiffers { number: place }),
        _ => None,
    }
}
