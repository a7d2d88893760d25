// A recording played: its records from an opening by rule 1, and what each of them asks for.
#![tactic(auto)]

ghost use Rattle.std.specs.Prelude.{◌≤◌, IfSome};

use playing::{Played, play_key, play_opening, play_room};
use playing_messages::{play_closing, play_message, play_pack, play_piece, play_short};
use record_input::{BadRecord, Call, next_call};
use std::io::Read;

// A recording holds at most 1,000,000 bytes.
const MOST: usize = 1000000;

// What a recording left: what its records left, and the number of a bad one, which ended it.
#[derive(Clone, Copy)]
pub struct Ended {
    pub played: Played,
    pub bad: Option<u64>,
}

// All records of a recording, each with its line where they are told. Each has four bytes at least, so that none behind the 250,000th is good.
pub fn play_all<R: Read>(
    out: &impl Print,
    from: &mut R,
    is_told: bool,
    cells: &mut [u8],
    layer: &mut [u8],
    shown: &mut [u8],
    dots: &mut [u8],
    printer: &mut [u8],
) -> Ended
    ensures { IfSome result.bad (λ n. (1 ≤ n) × (n ≤ 250001)) }
{
    let mut body = [0u8; 65536];
    let mut left = MOST;
    let mut played = playing::open(cells, layer, shown, dots);
    for number in 1..u64::MAX {
        match next_call(from, &mut left, &mut body) {
            Ok(Some(call)) => {
                let told = is_told.then_some(number);
                played = play(out, told, call, played, cells, layer, shown, dots, printer);
            }
            Ok(None) => break,
            Err(BadRecord) => {
                return Ended {
                    played,
                    bad: Some(number),
                };
            }
        }
    }
    Ended { played, bad: None }
}

// What a record asks for, its line with that number; without one it is done with no word.
pub fn play(
    out: &impl Print,
    number: Option<u64>,
    call: Call,
    played: Played,
    cells: &mut [u8],
    layer: &mut [u8],
    shown: &mut [u8],
    dots: &mut [u8],
    printer: &mut [u8],
) -> Played {
    match call {
        Call::Closing => play_closing(out, number, played, cells, layer, shown, dots),
        Call::KeyText(key, text) => play_key(out, number, played, key, text),
        Call::Opening(rule) => play_opening(out, number, played, rule, cells, layer, shown, dots),
        Call::Room(room) => play_room(out, number, played, room),
        _ => match printer.get_mut(..played.room) {
            Some(room) => play_sent(out, number, call, played, cells, layer, shown, dots, room),
            None => played,
        },
    }
}

// A call that is lent a printer buffer.
fn play_sent(
    out: &impl Print,
    number: Option<u64>,
    call: Call,
    played: Played,
    cells: &mut [u8],
    layer: &mut [u8],
    shown: &mut [u8],
    dots: &mut [u8],
    printer: &mut [u8],
) -> Played {
    match call {
        Call::Message(message) => play_message(
            out, number, played, message, cells, layer, shown, dots, printer,
        ),
        Call::Piece(piece) => play_piece(
            out, number, played, piece, cells, layer, shown, dots, printer,
        ),
        Call::Pack(pack) => play_pack(
            out, number, played, pack, cells, layer, shown, dots, printer,
        ),
        Call::Short(message) => play_short(
            out, number, played, message, cells, layer, shown, dots, printer,
        ),
        _ => played,
    }
}
