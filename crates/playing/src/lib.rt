// Openings, key texts and printer rooms of a recording played, each with its line; and what is handed on of any call: its settings, the sum over its printer
// bytes, and its line.
#![tactic(auto)]

ghost use Rattle.playing.specs.Playing.{KeyPlayed, Opens, Told};

use model::{Answer, Outcome, Settings};

// The settings as the last call left them, the sum of the printer bytes of all calls, and the printer room of the next.
#[derive(Clone, Copy)]
pub struct Played {
    pub settings: Settings,
    pub printer: u32,
    pub room: usize,
}

// The printer room at first: two copies of the picture.
const ROOM: usize = 1312;

// From an opening by rule 1; no printer bytes yet.
pub fn open(cells: &mut [u8], layer: &mut [u8], shown: &mut [u8], dots: &mut [u8]) -> Played
    ensures { Opens 1 cells.old layer.old dots.old shown.old 1 1312 result cells.new layer.new dots.new shown.new }
{
    let opened = terminal::opening(1, cells, layer, shown, dots);
    Played {
        settings: opened.settings,
        printer: 1,
        room: ROOM,
    }
}

// A key call, and its line: `K answer A`. It is lent no store, and prints nothing.
pub fn play_key(
    out: &impl Print,
    number: Option<u64>,
    played: Played,
    key: u8,
    text: &[u8],
) -> Played
    ensures { KeyPlayed key text.now played result }
{
    let Outcome { settings, answer } = terminal::key(played.settings, usize::from(key), text);
    say_short(out, number, answer.number);
    Played { settings, ..played }
}

// An opening by a rule, and its line: `K answer A`. What it returns is used from then on, also where it was refused.
pub fn play_opening(
    out: &impl Print,
    number: Option<u64>,
    played: Played,
    rule: u8,
    cells: &mut [u8],
    layer: &mut [u8],
    shown: &mut [u8],
    dots: &mut [u8],
) -> Played
    ensures { Opens rule cells.old layer.old dots.old shown.old played.printer played.room result cells.new layer.new dots.new shown.new }
{
    let opened = terminal::opening(usize::from(rule), cells, layer, shown, dots);
    say_short(out, number, opened.number);
    Played {
        settings: opened.settings,
        ..played
    }
}

// Another printer room from here on, and its line: `K room N`.
pub fn play_room(out: &impl Print, number: Option<u64>, played: Played, room: usize) -> Played {
    if let Some(number) = number {
        let _ = println!(out; "{number} room {room}");
    }
    Played { room, ..played }
}

// The line of a call; what it left, and the sum over its printer bytes, is handed on.
pub fn told(
    out: &impl Print,
    number: Option<u64>,
    played: Played,
    outcome: Outcome,
    printer: &[u8],
) -> Played
    ensures { Told played outcome printer.now result }
{
    say_line(out, number, outcome.answer);
    summed(played, outcome, printer)
}

// What a call left, and the sum over its printer bytes.
pub fn summed(played: Played, outcome: Outcome, printer: &[u8]) -> Played
    ensures { Told played outcome printer.now result }
{
    let Outcome { settings, answer } = outcome;
    let sum = report::adler32(played.printer, terminal::printed(printer, answer.printed));
    Played {
        settings,
        printer: sum,
        ..played
    }
}

// `K answer A`; nothing without a number.
fn say_short(out: &impl Print, number: Option<u64>, answer: u8) {
    if let Some(number) = number {
        let _ = println!(out; "{number} answer {answer}");
    }
}

// `K answer A taken T accepted C refused R first F at O printed P parameter N`; nothing without a number.
fn say_line(out: &impl Print, number: Option<u64>, answer: Answer) {
    if let Some(number) = number {
        say_counts(out, number, answer);
        let _ = println!(out);
    }
}

// The same with ` record N` at its end.
pub fn say_pack(out: &impl Print, number: Option<u64>, answer: Answer, record: u32) {
    if let Some(number) = number {
        say_counts(out, number, answer);
        let _ = println!(out; " record {record}");
    }
}

// A line's words, but for its end.
fn say_counts(out: &impl Print, number: u64, answer: Answer) {
    let Answer {
        printed,
        parameter,
        ..
    } = answer;
    let _ = print!(out; "{number} ");
    report::say_answer(out, answer);
    let _ = print!(out; " printed {printed} parameter {parameter}");
}
