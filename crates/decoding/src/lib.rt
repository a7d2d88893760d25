// What a whole sequence is, from its own bytes: ESC, the second byte, the parameters as sent.
#![tactic(auto)]

ghost use Rattle.std.specs.Prelude.{ℕ, ◌+◌, ◌≤◌, ◌≡◌, get_or};
ghost use Rattle.model.specs.Sequences.{mode_row_of};
ghost use Rattle.decoding.specs.Decoding.{kind_from, sent, whole};

use model::{Item, Sequence};

// A byte of a slice, 0 past its end.
pub fn byte(bytes: &[u8], i: usize) -> u8
    ensures { result ≡ get_or bytes.now i 0 }
{
    bytes.get(i).copied().unwrap_or(0)
}

// The sequence whose ESC stands at an offset of the message.
pub fn decode(own: &[u8], at: usize) -> Item
    requires { at ≤ 4096 }
    ensures { result ≡ whole at own.now }
{
    let second = byte(own, 1);
    if second == 208 {
        mode(own)
    } else {
        two_bytes(own, at, second)
    }
}

// 208, by its mode byte; one that is no mode is 11, itself the bad parameter.
fn mode(own: &[u8]) -> Item
    ensures { (o : ℕ) → result ≡ (mode_row_of (get_or own.now 2 0)).made (sent own.now) o }
{
    let kind = byte(own, 2);
    match kind {
        0 => Item::Sequence(Sequence::Mode0 {
            lines1: byte(own, 3),
            lines2: byte(own, 4),
        }),
        1 => Item::Sequence(Sequence::Mode1 {
            lines: byte(own, 3),
        }),
        2 => Item::Sequence(Sequence::Mode2 {
            lines: byte(own, 3),
            columns: byte(own, 4),
            boundary: byte(own, 5),
        }),
        3 => Item::Sequence(Sequence::Mode3),
        _ => Item::Refused {
            number: 11,
            parameter: 1,
        },
    }
}

// The 22 sequences of two bytes; others are looked for further down the list. (One `match` of 47 arms would be over 40 lines.)
fn two_bytes(own: &[u8], at: usize, second: u8) -> Item
    requires { at ≤ 4096 }
    ensures { result ≡ (kind_from 0 second).made (sent own.now) (at + 2) }
{
    match second {
        42 => Item::Sequence(Sequence::Clear),
        50 => Item::Sequence(Sequence::CursorOff),
        51 => Item::Sequence(Sequence::CursorOn),
        80 => Item::Sequence(Sequence::Copy),
        84 => Item::Sequence(Sequence::EraseLine),
        89 => Item::Sequence(Sequence::EraseRest),
        123 => Item::Sequence(Sequence::SecretOn),
        125 => Item::Sequence(Sequence::SecretOff),
        150 => Item::Sequence(Sequence::WindowUp),
        151 => Item::Sequence(Sequence::WindowDown),
        160 => Item::Sequence(Sequence::InsOn),
        161 => Item::Sequence(Sequence::InsOff),
        162 => Item::Sequence(Sequence::CapsOn),
        163 => Item::Sequence(Sequence::CapsOff),
        164 => Item::Sequence(Sequence::NumOn),
        165 => Item::Sequence(Sequence::NumOff),
        176 => Item::Sequence(Sequence::StringsOff),
        177 => Item::Sequence(Sequence::StringsOn),
        212 => Item::Sequence(Sequence::WindowTop),
        213 => Item::Sequence(Sequence::WindowBottom),
        215 => Item::Sequence(Sequence::WindowCursor),
        246 => Item::Sequence(Sequence::Nothing),
        _ => three_bytes(own, at, second),
    }
}

// The 11 of three bytes.
fn three_bytes(own: &[u8], at: usize, second: u8) -> Item
    requires { at ≤ 4096 }
    ensures { result ≡ (kind_from 22 second).made (sent own.now) (at + 2) }
{
    let n = byte(own, 2);
    match second {
        37 => Item::Sequence(Sequence::PrintCode(n)),
        67 => Item::Sequence(Sequence::Charset(n)),
        148 => Item::Sequence(Sequence::Step(n)),
        149 => Item::Sequence(Sequence::Tracking(n)),
        209 => Item::Sequence(Sequence::Select(n)),
        211 => Item::Sequence(Sequence::Display(n)),
        214 => Item::Sequence(Sequence::CursorKind(n)),
        240 => Item::Sequence(Sequence::Repeat(n)),
        241 => Item::Sequence(Sequence::RepeatDelay(n)),
        242 => Item::Sequence(Sequence::RepeatInterval(n)),
        247 => Item::Sequence(Sequence::Shift(n)),
        _ => four_or_five_bytes(own, at, second),
    }
}

// The 4 of four and five bytes.
fn four_or_five_bytes(own: &[u8], at: usize, second: u8) -> Item
    requires { at ≤ 4096 }
    ensures { result ≡ (kind_from 33 second).made (sent own.now) (at + 2) }
{
    match second {
        61 => Item::Sequence(Sequence::Put {
            line: byte(own, 2),
            column: byte(own, 3),
        }),
        144 => Item::Sequence(Sequence::LinesUp {
            from: byte(own, 2),
            count: byte(own, 3),
        }),
        145 => Item::Sequence(Sequence::LinesDown {
            from: byte(own, 2),
            count: byte(own, 3),
        }),
        210 => Item::Sequence(Sequence::Cover {
            row: byte(own, 2),
            column: byte(own, 3),
            code: byte(own, 4),
        }),
        _ => six_bytes(own, at, second),
    }
}

// The 4 of six bytes.
fn six_bytes(own: &[u8], at: usize, second: u8) -> Item
    requires { at ≤ 4096 }
    ensures { result ≡ (kind_from 37 second).made (sent own.now) (at + 2) }
{
    let a = byte(own, 2);
    let b = byte(own, 3);
    let c = byte(own, 4);
    let d = byte(own, 5);
    match second {
        199 => Item::Sequence(Sequence::DrawDot {
            p1: a,
            p2: b,
            p3: c,
            p4: d,
        }),
        243 => Item::Sequence(Sequence::Arrows1 {
            c1: a,
            c2: b,
            c3: c,
            c4: d,
        }),
        244 => Item::Sequence(Sequence::Arrows2 {
            c1: a,
            c2: b,
            c3: c,
            c4: d,
        }),
        245 => Item::Sequence(Sequence::Arrows3 {
            c1: a,
            c2: b,
            c3: c,
            c4: d,
        }),
        _ => longest(own, at, second),
    }
}

// Those of eleven and thirteen bytes, and 10 for a byte that is not in the list. The rows of a pattern begin behind its code.
fn longest(own: &[u8], at: usize, second: u8) -> Item
    requires { at ≤ 4096 }
    ensures { result ≡ (kind_from 41 second).made (sent own.now) (at + 2) }
{
    match second {
        224 => Item::Sequence(Sequence::Pattern {
            code: byte(own, 2),
            at: (at + 3) as u32,
        }),
        198 => Item::Sequence(Sequence::DrawLine {
            p1: byte(own, 2),
            p2: byte(own, 3),
            p3: byte(own, 4),
            p4: byte(own, 5),
            p5: byte(own, 6),
            p6: byte(own, 7),
            p7: byte(own, 8),
            p8: byte(own, 9),
            p9: byte(own, 10),
            p10: byte(own, 11),
            p11: byte(own, 12),
        }),
        _ => Item::Refused {
            number: 10,
            parameter: 0,
        },
    }
}
