//! What a call returns.
ghost use Rattle.std.specs.Prelude.{◌≡◌, ℕ, List, [], Option, IfErr};
ghost use Rattle.cm_tool.specs.declared.fault.Fault as faults;
ghost use Rattle.cmk_c.specs.Calls.{AnswersBy, Gives, IsEmpty};
ghost use Rattle.cmk_c.specs.steps.Places.{HasPlace};

use crate::numbers::{DONE, OUT_OF_RANGE, number_of, place_of};
use cm_tool::Fault;

/// What a call returns in addition to its number.
#[repr(C)]
pub struct Output {
    /// The output followed by a NUL, in a block of `malloc` that the caller frees; or no bytes.
    pub bytes: &'static [u8],
    /// How many bytes the output has before the NUL.
    pub length: usize,
    /// Where the fault is: a byte, a line or a leaf, or the number of a reason.
    pub place: usize,
}

/// Stores the result in the output, and returns the number of the fault, or 0.
pub(crate) fn put(made: Result<Vec<u8>, Fault>, output: &mut Output) -> u32
    requires { IfErr made HasPlace }
    ensures { (fault : Option faults.Fault) (bytes : List ℕ) → Gives fault bytes made
        → AnswersBy fault bytes
        (record {
          number = result;
          place = output.new.place;
          count = output.new.length;
          bytes = output.new.bytes.now;
        }) }
{
    match made {
        Ok(bytes) => {
            output.place = 0;
            output.length = bytes.len().saturating_sub(1);
            output.bytes = bytes.leak();
            DONE
        }
        Err(fault) => {
            output.place = place_of(fault);
            output.length = 0;
            output.bytes = &[];
            number_of(fault)
        }
    }
}

/// Reports that a number among the options is out of its range.
pub(crate) fn put_wrong_options(output: &mut Output) -> u32
    ensures { IsEmpty 11 [] (record {
      number = result;
      place = output.new.place;
      count = output.new.length;
      bytes = output.new.bytes.now;
    }) }
{
    output.place = 0;
    output.length = 0;
    output.bytes = &[];
    OUT_OF_RANGE
}
