// What a piece and the closing are made of, beside message calls: settings with another line, answers counted from the stream's start.
#![tactic(auto)]

ghost use Rattle.std.specs.Prelude.{◌≡◌, true, ◌+◌, ◌^◌, ◌<◌, ◌≤◌, leb, length, replicate};
ghost use Rattle.calls.specs.Calls.{terminal};
ghost use Rattle.model.specs.Refusals.{check_number};
ghost use Rattle.model.specs.Line.{padded};
ghost use Rattle.model.specs.State.{with_line};
ghost use Rattle.stream_parts.specs.Parts.{Addable, both_of, closing_number, counted_from, line_number};

use model::{Answer, MESSAGE, Refusal, Settings};
use numbers::check_stores;

// Whether a piece can be read at once: none waits, it is not too long, and the count stays below its limit whatever its length.
pub fn plain(held: u8, length: usize, count: u32) -> bool
    ensures { result ≡ true → (held ≡ 0) × ((length ≤ 4096) × (count ≤ 999995904)) }
{
    (held == 0) & (length <= 4096) & (count <= 999995904)
}

// What a piece is refused by; nothing where only the rest of its settings can still be at fault, which a message call judges.
pub fn check_line(
    settings: Settings,
    piece: &[u8],
    cells: &[u8],
    layer: &[u8],
    shown: &[u8],
    dots: &[u8],
) -> Result<(), Refusal>
    ensures { check_number result ≡ line_number (terminal settings cells.now layer.now dots.now shown.now) piece.now }
{
    check_stores(cells, layer, shown, dots)?;
    if piece.len() > MESSAGE {
        return Err(Refusal::TooLong);
    }
    let waiting = settings.waiting;
    if !unfinished::sound(waiting, settings.held, settings.count) {
        return Err(Refusal::Unsound);
    }
    if in_count(settings.count, piece.len()) {
        return Ok(());
    }
    if soundness::sound(settings) {
        Err(Refusal::StreamTooLong)
    } else {
        Err(Refusal::Unsound)
    }
}

// Whether so many bytes more are in the stream's limit.
fn in_count(count: u32, size: usize) -> bool
    requires { size ≤ 4096 }
    ensures { result ≡ leb (count + size) 1000000000 }
{
    (count as usize) + size <= 1000000000
}

// And the closing.
pub fn check_closing(
    settings: Settings,
    cells: &[u8],
    layer: &[u8],
    shown: &[u8],
    dots: &[u8],
) -> Result<(), Refusal>
    ensures { check_number result ≡ closing_number (terminal settings cells.now layer.now dots.now shown.now) }
{
    check_stores(cells, layer, shown, dots)?;
    let waiting = settings.waiting;
    if unfinished::sound(waiting, settings.held, settings.count) {
        Ok(())
    } else {
        Err(Refusal::Unsound)
    }
}

// The same settings while none waits: a message call reads under them.
pub fn quieted(settings: Settings) -> Settings
    ensures { result ≡ with_line settings (replicate 12 0) 0 settings.count }
{
    let mut s = settings;
    let none = [0u8; 12];
    s.waiting = none;
    s.held = 0;
    s
}

// The bytes that wait then, and the count.
pub fn lined(settings: Settings, rest: &[u8], count: u32) -> Settings
    requires { length rest.now ≤ 12 }
    ensures { result ≡ with_line settings (padded rest.now) (length rest.now) count }
{
    let mut s = settings;
    let waiting = unfinished::padded(rest);
    s.waiting = waiting;
    s.held = rest.len() as u8;
    s.count = count;
    s
}

// "offsets count from the stream's start"; so many bytes taken.
pub fn counted_from(answer: Answer, start: u32, taken: u32) -> Answer
    requires { start + answer.offset < 2 ^ 32 }
    ensures { result ≡ counted_from start taken answer }
{
    let mut a = answer;
    a.taken = taken;
    if a.refused == 0 {
        return a;
    }
    a.offset = start + a.offset;
    a
}

// Two answers as one: counts added, the first refusal of the two, the second's so many bytes further on.
pub fn together(one: Answer, two: Answer, further: u32) -> Answer
    requires { Addable one two further }
    ensures { result ≡ both_of one two further }
{
    let mut a = two;
    a.taken = one.taken + two.taken;
    a.accepted = one.accepted + two.accepted;
    a.refused = one.refused + two.refused;
    a.printed = one.printed + two.printed;
    if one.refused != 0 {
        a.first = one.first;
        a.parameter = one.parameter;
        a.offset = one.offset;
        return a;
    }
    if two.refused != 0 {
        a.offset = further + two.offset;
    }
    a
}
