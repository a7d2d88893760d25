// Key repeats worked out from a trace of presses and releases (document 02, P13). What is sent is in specs/Codes, what the call promises
// in specs/Call.
#![tactic(auto)]

mod codes;
mod repeating;
mod strokes;
mod writing;

ghost use Rattle.std.specs.Prelude.{◌≡◌};
ghost use Rattle.traces.specs.Call.{RepeatsPromised, answer_of, number_of};

use crate::repeating::Repeating;
use model::Settings;

// A record of a trace: a press, or else a release; its tick of 1/256 second and its key.
#[derive(Clone, Copy)]
pub struct Stroke {
    pub press: bool,
    pub tick: u32,
    pub key: u8,
}

// What the call returns: its number, and how many codes were sent. A number and no Result: so px8_key_repeats gives it to C.
#[repr(C)]
#[derive(Clone, Copy)]
pub struct Repeats {
    pub number: u8,
    pub count: u64,
}

// Why a call is refused; `number_of` has the numbers.
#[derive(Clone, Copy, Debug, PartialEq, Eq)]
pub enum Refusal {
    Unsound,
    TooLong,
    CutRecord,
    UnknownKind,
    FallingTick,
    OutputTooSmall,
}

// The paper's number of each.
impl From<Refusal> for u8 {
    ghost from_gives = { λ refusal number. number ≡ number_of refusal };

    fn from(refusal: Refusal) -> u8 {
        match refusal {
            Refusal::Unsound => 3,
            Refusal::TooLong => 19,
            Refusal::CutRecord => 20,
            Refusal::UnknownKind => 21,
            Refusal::FallingTick => 24,
            Refusal::OutputTooSmall => 25,
        }
    }
}

// "list the codes sent, in order, and return their number": tick and key, five bytes each, from the output's start. The codes are counted
// before one is written, by a division a press, so that refusal 25 writes nothing and the time hangs on the trace and on what is written.
pub fn key_repeats(settings: Settings, trace: &[u8], output: &mut [u8]) -> Repeats
    ensures { RepeatsPromised settings trace.now output.old result output.new }
{
    match list(settings, trace, output) {
        Ok(count) => Repeats { number: 0, count },
        Err(refusal) => Repeats {
            number: refusal.into(),
            count: 0,
        },
    }
}

// The codes, written; how many there are.
fn list(settings: Settings, trace: &[u8], output: &mut [u8]) -> Result<u64, Refusal>
    ensures { RepeatsPromised settings trace.now output.old (answer_of result) output.new }
{
    let strokes = strokes::check(settings, trace)?;
    let repeating = Repeating {
        keys: settings.keys,
    };
    let count = codes::count_all(repeating, strokes);
    if count > (output.len() as u64) / 5 {
        return Err(Refusal::OutputTooSmall);
    }
    writing::write_all(repeating, strokes, output);
    Ok(count)
}
