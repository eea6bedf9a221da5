//! Calls that fill memory which the caller has set aside.
ghost use Rattle.std.specs.Prelude.{◌≡◌, ℕ, List, Option, IfErr};
ghost use Rattle.cm_tool.specs.declared.fault.Fault as faults;
ghost use Rattle.cmk_c.specs.steps.Places.{HasPlace};
ghost use Rattle.cmk_c.specs.Calls.{FillsBy, Gives, IsEmpty, IsPut, ended};

use crate::numbers::{DONE, NO_ROOM, OUT_OF_RANGE, number_of, place_of};
use cm_tool::Fault;

/// What a call that fills a caller's buffer returns.
#[repr(C)]
#[derive(Clone, Copy, Debug, Drop)]
pub struct Filled {
    /// How many bytes the output has before the NUL.
    pub length: usize,
    /// Where the fault is: a byte, a line or a leaf, or the number of a reason.
    pub place: usize,
}

/// Writes bytes that end with NUL to the start of the room, if it has room for all of them, and sets the
/// number of bytes before the NUL.
pub(crate) fn fill_with(bytes: &[u8], room: &mut [u8], filled: &mut Filled) -> u32
    ensures { (output : List ℕ) → bytes.now ≡ ended output → IsPut output room.old
        (record {
          number = result;
          place = filled.new.place;
          count = filled.new.length;
          bytes = room.new;
        }) }
{
    let count = bytes.len();
    filled.place = 0;
    filled.length = count.saturating_sub(1);
    if room.len() < count {
        return NO_ROOM;
    }
    room[..count].copy_from_slice(bytes);
    DONE
}

/// Writes the result to the start of the room, or sets the fault and leaves the room unchanged.
pub(crate) fn fill(made: Result<Vec<u8>, Fault>, room: &mut [u8], filled: &mut Filled) -> u32
    requires { IfErr made HasPlace }
    ensures { (fault : Option faults.Fault) (output : List ℕ) → Gives fault output made
        → FillsBy fault output room.old
        (record {
          number = result;
          place = filled.new.place;
          count = filled.new.length;
          bytes = room.new;
        }) }
{
    match made {
        Ok(bytes) => fill_with(bytes.as_slice(), room, filled),
        Err(fault) => {
            filled.place = place_of(fault);
            filled.length = 0;
            number_of(fault)
        }
    }
}

/// Reports that a number that was passed is out of its range.
pub(crate) fn fill_nothing(filled: &mut Filled) -> u32
    ensures { (room : List ℕ) → IsEmpty 11 room
        (record {
          number = result;
          place = filled.new.place;
          count = filled.new.length;
          bytes = room;
        }) }
{
    filled.place = 0;
    filled.length = 0;
    OUT_OF_RANGE
}
