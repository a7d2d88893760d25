// The bytes of a sequence (document 02, P7): ESC, its second byte, its parameters as sent.
#![tactic(auto)]

ghost use Rattle.std.specs.Prelude.{◌≡◌, ◌≤◌, length, take};
ghost use Rattle.model.specs.Sequences.{code_of};
ghost use Rattle.spelling.specs.Spelling.{bytes_of};

use model::Sequence;
use std::marker::Model;

// The bytes of a sequence, at least ESC and a second byte: the first `length` of an array.
#[derive(Clone, Copy)]
pub struct Spelled {
    length: usize,
    bytes: [u8; 13],
}

// Clauses see its bytes. The array is 0 behind them, so that they give the fields back, which `Copy` needs.
impl Model for Spelled {
    ghost use Rattle.std.specs.Prelude.{◌≡◌, ℕ, ◌-◌, ◌≤◌, List, ◌++◌, length as len, take, drop, replicate};
    ghost use Rattle.std.proofs.Common.{arith, length-take-le, take-append-drop};

    ghost Value = { List ℕ };

    ghost view = { λ s. take s.length s.bytes };

    ghost invariant = { λ s. (2 ≤ s.length) × (s.length ≤ 13) × (len s.bytes ≡ 13) × (drop s.length s.bytes ≡ replicate (13 - s.length) 0) };

    ghost inverse = { λ bs. record { length = len bs; bytes = bs ++ replicate (13 - len bs) 0 } };

    ghost inverse_ok = { λ a h i.
        let all : len (take a.length a.bytes) ≡ a.length = length-take-le a.length a.bytes (omega (arith, h)) in
        let whole : take a.length a.bytes ++ replicate (13 - len (take a.length a.bytes)) 0 ≡ a.bytes = rw (all, ← h.3) (take-append-drop a.length a.bytes) in
        record { length = all i; bytes = whole i } };
}

impl Spelled {
    // All bytes of an array.
    pub fn of<const N: usize>(given: [u8; N]) -> Spelled
        requires { (2 ≤ N) × (N ≤ 13) }
        ensures { result ≡ given.entry }
    {
        let mut bytes = [0; 13];
        bytes[..N].copy_from_slice(&given);
        Spelled { length: N, bytes }
    }

    // The first of thirteen; those behind them are cleared.
    pub fn front(bytes: [u8; 13], length: usize) -> Spelled
        requires { (2 ≤ length) × (length ≤ 13) }
        ensures { result ≡ take length bytes }
    {
        let mut bytes = bytes;
        bytes[length..].fill(0);
        Spelled { length, bytes }
    }

    pub fn as_slice(&self) -> &[u8]
        ensures bytes { result.now ≡ self.now }
        ensures some { 2 ≤ length result.now }
        ensures most { length result.now ≤ 13 }
    {
        &self.bytes[..self.length]
    }
}

// "From a named sequence and its parameters (bytes as sent), write its bytes and no other"; `rows` are a pattern's. Here the second bytes below
// 198, in their order; the others are looked for further down.
pub fn spell(sequence: Sequence, rows: [u8; 8]) -> Spelled
    ensures { result ≡ bytes_of sequence rows }
{
    match sequence {
        Sequence::PrintCode(n) => Spelled::of([27, 37, n]),
        Sequence::Clear => Spelled::of([27, 42]),
        Sequence::CursorOff => Spelled::of([27, 50]),
        Sequence::CursorOn => Spelled::of([27, 51]),
        Sequence::Put { line, column } => Spelled::of([27, 61, line, column]),
        Sequence::Charset(n) => Spelled::of([27, 67, n]),
        Sequence::Copy => Spelled::of([27, 80]),
        Sequence::EraseLine => Spelled::of([27, 84]),
        Sequence::EraseRest => Spelled::of([27, 89]),
        Sequence::SecretOn => Spelled::of([27, 123]),
        Sequence::SecretOff => Spelled::of([27, 125]),
        Sequence::LinesUp { from, count } => Spelled::of([27, 144, from, count]),
        Sequence::LinesDown { from, count } => Spelled::of([27, 145, from, count]),
        Sequence::Step(n) => Spelled::of([27, 148, n]),
        Sequence::Tracking(n) => Spelled::of([27, 149, n]),
        Sequence::WindowUp => Spelled::of([27, 150]),
        Sequence::WindowDown => Spelled::of([27, 151]),
        Sequence::InsOn => Spelled::of([27, 160]),
        Sequence::InsOff => Spelled::of([27, 161]),
        Sequence::CapsOn => Spelled::of([27, 162]),
        Sequence::CapsOff => Spelled::of([27, 163]),
        Sequence::NumOn => Spelled::of([27, 164]),
        Sequence::NumOff => Spelled::of([27, 165]),
        Sequence::StringsOff => Spelled::of([27, 176]),
        Sequence::StringsOn => Spelled::of([27, 177]),
        _ => from_198(sequence, rows),
    }
}

// The second bytes from 198 on: drawing, modes, and what is done to the shown screen.
fn from_198(sequence: Sequence, rows: [u8; 8]) -> Spelled
    requires { 198 ≤ code_of sequence }
    ensures { result ≡ bytes_of sequence rows }
{
    match sequence {
        Sequence::DrawLine {
            p1,
            p2,
            p3,
            p4,
            p5,
            p6,
            p7,
            p8,
            p9,
            p10,
            p11,
        } => Spelled::of([27, 198, p1, p2, p3, p4, p5, p6, p7, p8, p9, p10, p11]),
        Sequence::DrawDot { p1, p2, p3, p4 } => Spelled::of([27, 199, p1, p2, p3, p4]),
        Sequence::Mode0 { lines1, lines2 } => Spelled::of([27, 208, 0, lines1, lines2]),
        Sequence::Mode1 { lines } => Spelled::of([27, 208, 1, lines]),
        Sequence::Mode2 {
            lines,
            columns,
            boundary,
        } => Spelled::of([27, 208, 2, lines, columns, boundary]),
        Sequence::Mode3 => Spelled::of([27, 208, 3]),
        Sequence::Select(n) => Spelled::of([27, 209, n]),
        Sequence::Cover { row, column, code } => Spelled::of([27, 210, row, column, code]),
        _ => from_211(sequence, rows),
    }
}

// From 211 on.
fn from_211(sequence: Sequence, rows: [u8; 8]) -> Spelled
    requires { 211 ≤ code_of sequence }
    ensures { result ≡ bytes_of sequence rows }
{
    match sequence {
        Sequence::Display(n) => Spelled::of([27, 211, n]),
        Sequence::WindowTop => Spelled::of([27, 212]),
        Sequence::WindowBottom => Spelled::of([27, 213]),
        Sequence::CursorKind(n) => Spelled::of([27, 214, n]),
        Sequence::WindowCursor => Spelled::of([27, 215]),
        Sequence::Pattern { code, .. } => {
            let [r1, r2, r3, r4, r5, r6, r7, r8] = rows;
            Spelled::of([27, 224, code, r1, r2, r3, r4, r5, r6, r7, r8])
        },
        Sequence::Repeat(n) => Spelled::of([27, 240, n]),
        Sequence::RepeatDelay(n) => Spelled::of([27, 241, n]),
        Sequence::RepeatInterval(n) => Spelled::of([27, 242, n]),
        Sequence::Arrows1 { c1, c2, c3, c4 } => Spelled::of([27, 243, c1, c2, c3, c4]),
        Sequence::Arrows2 { c1, c2, c3, c4 } => Spelled::of([27, 244, c1, c2, c3, c4]),
        Sequence::Arrows3 { c1, c2, c3, c4 } => Spelled::of([27, 245, c1, c2, c3, c4]),
        Sequence::Nothing => Spelled::of([27, 246]),
        Sequence::Shift(n) => Spelled::of([27, 247, n]),
        _ => unreachable!(),
    }
}
