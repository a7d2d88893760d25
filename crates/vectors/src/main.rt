// Plays named cases from standard input, records as in a recording, of three kinds:
// - 0: a new case, from an opening and with printer room 1,312; the body is its name.
// - 1: a message.
// - 2: the printer room of the messages that follow in the case, four bytes, little-endian; at most 65,536.
// Prints for each case its name, a line a message, and what stands after the last. A bad record ends the file with `bad record`.
#![tactic(auto)]

use model::{CELLS, DOTS, LAYER, SHOWN};
use playing::Played;
use record_input::{BadRecord, Record, next_record};
use std::io::Read;

// The case that is played.
#[derive(Clone, Copy)]
struct Case {
    played: Played,
    room: usize,
    number: u64,
}

fn main(rt: HostRuntime) {
    let mut cells = [0u8; CELLS];
    let mut layer = [0u8; LAYER];
    let mut shown = [0u8; SHOWN];
    let mut dots = [0u8; DOTS];
    let mut printer = [0u8; 65536];
    let ended = play_cases(
        &rt,
        &mut rt.stdin(),
        &mut cells,
        &mut layer,
        &mut shown,
        &mut dots,
        &mut printer,
    );
    if ended.is_err() {
        let _ = println!(rt; "bad record");
    }
}

// The cases of a file; before its first there is none.
fn play_cases<R: Read>(
    out: &impl Print,
    from: &mut R,
    cells: &mut [u8],
    layer: &mut [u8],
    shown: &mut [u8; SHOWN],
    dots: &mut [u8],
    printer: &mut [u8],
) -> Result<(), BadRecord> {
    let mut body = [0u8; 65536];
    let mut case: Option<Case> = None;
    for _ in 0..u64::MAX {
        match next_record(from, &mut body)? {
            Some(record) => {
                case = step(out, case, record, cells, layer, shown, dots, printer)?;
            }
            None => {
                say_case(out, case, cells, layer, shown, dots);
                return Ok(());
            }
        }
    }
    Ok(())
}

// One record.
fn step(
    out: &impl Print,
    case: Option<Case>,
    record: Record,
    cells: &mut [u8],
    layer: &mut [u8],
    shown: &mut [u8; SHOWN],
    dots: &mut [u8],
    printer: &mut [u8],
) -> Result<Option<Case>, BadRecord> {
    match (record.kind, record.body) {
        (0, name) => {
            say_case(out, case, cells, layer, shown, dots);
            report::say(out, b"case ");
            report::say(out, name);
            report::say(out, b"\n");
            Ok(Some(new_case(cells, layer, shown, dots)))
        }
        (1, body) => {
            let case = case.ok_or(BadRecord)?;
            let case = message(out, case, body, cells, layer, shown, dots, printer)?;
            Ok(Some(case))
        }
        (2, [a, b, c, d]) => {
            let room = u32::from_le_bytes([*a, *b, *c, *d]) as usize;
            Ok(case.map(|case| Case { room, ..case }))
        }
        _ => Err(BadRecord),
    }
}

fn new_case(cells: &mut [u8], layer: &mut [u8], shown: &mut [u8], dots: &mut [u8]) -> Case {
    let played = playing::open(cells, layer, shown, dots);
    Case {
        played,
        room: played.room,
        number: 1,
    }
}

// What stands at a case's end.
fn say_case(
    out: &impl Print,
    case: Option<Case>,
    cells: &[u8],
    layer: &[u8],
    shown: &[u8; SHOWN],
    dots: &[u8],
) {
    if let Some(Case { played, .. }) = case {
        report::say_standing(
            out,
            played.settings,
            cells,
            layer,
            shown,
            dots,
            played.printer,
        );
    }
}

// A message, with a room that the buffer has.
fn message(
    out: &impl Print,
    case: Case,
    message: &[u8],
    cells: &mut [u8],
    layer: &mut [u8],
    shown: &mut [u8],
    dots: &mut [u8],
    printer: &mut [u8],
) -> Result<Case, BadRecord> {
    let room = printer.get_mut(..case.room).ok_or(BadRecord)?;
    let number = Some(case.number);
    let played = playing_messages::play_message(
        out,
        number,
        case.played,
        message,
        cells,
        layer,
        shown,
        dots,
        room,
    );
    Ok(Case {
        played,
        number: case.number.wrapping_add(1),
        ..case
    })
}
