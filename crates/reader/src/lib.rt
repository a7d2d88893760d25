// A message into items, one at a time: which bytes are an item's own; what it is (crate decoding); and whether it is accepted (crate judging).
#![tactic(auto)]

ghost use Rattle.std.specs.Prelude.{◌<◌, ◌≤◌, ◌≡◌, [], ◌∷◌, get_or, length};
ghost use Rattle.model.specs.Reading.{ended};
ghost use Rattle.reader.specs.Reading.{ReadAt, by_itself};

use decoding::{byte, decode};
use judging::judge;
use model::{Item, Limits, Sequence};

// An item and the number of its bytes.
#[derive(Clone, Copy)]
pub struct Reading {
    pub item: Item,
    pub length: usize,
}

// The item that begins at an offset of the message.
pub fn read_item(limits: Limits, room: usize, message: &[u8], at: usize) -> Reading
    requires at_in_bounds { at < length message.now }
    requires message_len_bound { length message.now ≤ 4096 }
    ensures { ReadAt message.now at limits room result }
{
    let first = message[at];
    if first == 27 {
        return read_sequence(limits, room, message, at);
    }
    let item = one_byte(first);
    Reading { item, length: 1 }
}

// A byte that is no ESC: a code, or it prints.
pub fn one_byte(first: u8) -> Item
    ensures { result ≡ by_itself first }
{
    if first < 32 {
        Item::Control(first)
    } else {
        Item::Printed(first)
    }
}

// The same at an ESC. "Sequences are checked 10, 12, 14, 11, 13", of which 14 has ended (P11): `judge` gives the last two.
fn read_sequence(limits: Limits, room: usize, message: &[u8], at: usize) -> Reading
    requires at_in_bounds { at < length message.now }
    requires message_len_bound { length message.now ≤ 4096 }
    requires at_value { get_or message.now at 0 ≡ 27 }
    ensures { ReadAt message.now at limits room result }
{
    let left = message.len() - at;
    if left < 2 {
        return Reading {
            item: Item::Refused {
                number: 12,
                parameter: 0,
            },
            length: left,
        };
    }
    let second = message[at + 1];
    let length = tables::length_of(second, byte(message, at + 2));
    if length == 0 {
        return Reading {
            item: Item::Refused {
                number: 10,
                parameter: 0,
            },
            length: 2,
        };
    }
    if left < length {
        return Reading {
            item: cut_short(second),
            length: left,
        };
    }
    let end = at + length;
    Reading {
        item: judge(limits, room, decode(&message[at..end], at)),
        length,
    }
}

// "At the very end of a message, 27, 209 means n = 0"; other sequences that a message cuts short are 12.
fn cut_short(second: u8) -> Item
    ensures { result ≡ ended (27 ∷ second ∷ []) }
{
    if second == 209 {
        Item::Sequence(Sequence::Select(0))
    } else {
        Item::Refused {
            number: 12,
            parameter: 0,
        }
    }
}
