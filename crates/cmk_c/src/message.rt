//! The meaning of the number that a call returns, and the line for it.
ghost use Rattle.std.specs.Prelude.{◌≡◌, ◌≤◌};
ghost use Rattle.cmk_c.specs.Calls.{IsPut, ended};
ghost use Rattle.cmk_c.specs.Numbers.{message_of, message_line};

use crate::filling::{Filled, fill_with};
use crate::numbers::{NO_ROOM, OUT_OF_RANGE, fault_numbered};
use arrayvec::ArrayString;
use cm_tool::Fault;

/// What a call reports instead of its output.
#[derive(Clone, Copy, Debug, Drop)]
pub enum Message {
    /// The fault of a text, as the program reports it.
    Refused(Fault),
    /// A number that was passed is out of its range.
    OutOfRange,
    /// The caller's room is too small.
    NoRoom,
}

/// The meaning of this number at this place.
pub(crate) fn message_of(number: u32, place: usize) -> Option<Message>
    ensures { result ≡ message_of number place }
{
    match number {
        OUT_OF_RANGE => Some(Message::OutOfRange),
        NO_ROOM => Some(Message::NoRoom),
        _ => match fault_numbered(number, place) {
            Some(fault) => Some(Message::Refused(fault)),
            None => None,
        },
    }
}

/// The most bytes of a message's line, including the NUL that ends it.
const ROOM: usize = 127;

impl Message {
    /// Its line, followed by a NUL. It takes no memory.
    fn ended_line(&self) -> ArrayString<ROOM>
        ensures { result.bytes ≡ ended (message_line self.now) }
    {
        let mut line = ArrayString::new();
        match self {
            Message::Refused(fault) => line.push_str(fault.line().as_str()),
            Message::OutOfRange => line.push_str("cmk: a number is out of its range\n"),
            Message::NoRoom => line.push_str("cmk: the room is too small\n"),
        }
        line.push_str("\0");
        line
    }
}

/// Writes the line of the message, followed by a NUL, to the start of the room. It takes no memory.
pub(crate) fn fill_line(message: Message, room: &mut [u8], filled: &mut Filled) -> u32
    ensures line { IsPut (message_line message) room.old
        (record {
          number = result;
          place = filled.new.place;
          count = filled.new.length;
          bytes = room.new;
        }) }
    ensures short { filled.new.length ≤ 126 }
{
    fill_with(message.ended_line().as_str().as_bytes(), room, filled)
}
