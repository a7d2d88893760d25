// The tables of document 01 that more than one crate asks, each written once: which numbers 67 and 247 take, the rows of text by the key
// display and H by the mode, and the length of a sequence by its second byte. Of document 02, P11: what is idle in a mode, how long a copy is
// there, and a number of two bytes.
#![tactic(auto)]

ghost use Rattle.std.specs.Prelude.{◌≡◌, ◌≤◌, ◌<◌};
ghost use Rattle.model.specs.declared.Settings.{Settings};
ghost use Rattle.model.specs.Checks.{member};
ghost use Rattle.model.specs.Dot.{two_bytes};
ghost use Rattle.model.specs.Picture.{copy_size_of};
ghost use Rattle.model.specs.Screens.{height, text_rows};
ghost use Rattle.model.specs.Sequences.{code_of, idle?};
ghost use Rattle.model.specs.Sound.{charsets, shifts};
ghost use Rattle.tables.specs.Lengths.{length_of};

use model::{COPY, DOTS, Sequence};

// 67: "one of U F G E D W I S N".
pub fn charset(n: u8) -> bool
    ensures { result ≡ member n charsets }
{
    matches!(
        n,
        b'U' | b'F' | b'G' | b'E' | b'D' | b'W' | b'I' | b'S' | b'N'
    )
}

// 247: "0, 2, 4, 6, 16, 18, 32, 34, 64, 66".
pub fn shift(n: u8) -> bool
    ensures { result ≡ member n shifts }
{
    matches!(n, 0 | 2 | 4 | 6 | 16 | 18 | 32 | 34 | 64 | 66)
}

// The rows of text of the shown screen, of all settings with that key display: "With ESC 211,0 row 8 shows ten key texts" (document 02, P2).
pub fn text_rows(display: u8) -> u8
    ensures { ((s : Settings) → s.display ≡ display → result ≡ text_rows s) × (result ≤ 8) }
{
    if display == 0 { 7 } else { 8 }
}

// The column "H" of the table of modes, of all settings in that mode with that key display.
pub fn height_of(mode: u8, display: u8) -> u8
    ensures { (s : Settings) → s.mode ≡ mode → s.display ≡ display → result ≡ height s }
{
    let rows = text_rows(display);
    if mode == 1 { 2 * rows } else { rows }
}

// Whether a sequence is accepted in a mode whatever its parameters, and does nothing: "In mode 3, .. 148 to 151, 209 and 211 to 215 do
// nothing", in the others 198 and 199. One `match`, the mode asked in its arms, so that the compiler can join it to the one before it.
pub fn idle(mode: u8, q: Sequence) -> bool
    ensures { result ≡ idle? mode (code_of q) }
{
    match q {
        Sequence::Step(_) => mode == 3,
        Sequence::Tracking(_) => mode == 3,
        Sequence::WindowUp => mode == 3,
        Sequence::WindowDown => mode == 3,
        Sequence::DrawLine { .. } => mode != 3,
        Sequence::DrawDot { .. } => mode != 3,
        Sequence::Select(_) => mode == 3,
        Sequence::Display(_) => mode == 3,
        Sequence::WindowTop => mode == 3,
        Sequence::WindowBottom => mode == 3,
        Sequence::CursorKind(_) => mode == 3,
        Sequence::WindowCursor => mode == 3,
        _ => false,
    }
}

// The bytes of a printed copy: of the picture, or in mode 3 of the dots.
pub fn copy_size(mode: u8) -> usize
    ensures { result ≡ copy_size_of mode }
{
    if mode == 3 { DOTS } else { COPY }
}

// A number of two bytes, the high one first. (By `u16::from_be_bytes` lifts of 20 lines took 1.06 of the time in mode 1.)
pub fn two_bytes(high: u8, low: u8) -> u16
    ensures { (result ≡ two_bytes high low) × (result < 65536) }
{
    256 * (high as u16) + (low as u16)
}

// "Lengths with ESC, by second byte": the bytes of a sequence, ESC with them; 0 where the list has none. One decision, in the list's order: an arm
// a line, its bytes in their order; the last line is 208's, by its mode byte, the third.
pub fn length_of(second: u8, third: u8) -> usize
    ensures { result ≡ length_of second third }
{
    match second {
        // "2: 42, 50, 51, 80, 84, 89, 123, 125, 150, 151, 160 to 165, 176, 177, 212, 213, 215, 246"
        42
        | 50
        | 51
        | 80
        | 84
        | 89
        | 123
        | 125
        | 150
        | 151
        | 160..=165
        | 176
        | 177
        | 212
        | 213
        | 215
        | 246 => 2,
        37 | 67 | 148 | 149 | 209 | 211 | 214 | 240 | 241 | 242 | 247 => 3, // "3: 37, 67, 148, 149, 209, 211, 214, 240, 241, 242, 247"
        61 | 144 | 145 => 4, // "4: 61, 144, 145"
        210 => 5, // "5: 210"
        199 | 243 | 244 | 245 => 6, // "6: 199, 243, 244, 245"
        224 => 11, // "11: 224"
        198 => 13, // "13: 198"
        // "208: 5, 4, 6 or 3 for modes 0 to 3; any other mode byte: 3, and 11"
        208 => match third {
            0 => 5,
            1 => 4,
            2 => 6,
            3 => 3,
            _ => 3, // "any other mode byte"
        },
        _ => 0, // not in the list
    }
}
