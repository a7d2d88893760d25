// What changed between two shown screens, in the bytes that draw it in an ordinary terminal.
ghost use Rattle.std.specs.Prelude.{◌≡◌, ◌+◌, ◌<◌, ◌≤◌, List, [], ◌∷◌, ◌++◌, length};
ghost use Rattle.glass_drawing.specs.Drawing.{Draws, address_of, apart, bytes_of, changed, strokes_at};

use model::SHOWN;
use std::marker::Model;

// A letter has one byte and an address before it seven.
const MOST: usize = 8 * SHOWN;

// Bytes one behind another, the first of an array; a contract sees the list of them. The array is 0 behind them, so that the list gives the fields
// back, which `Copy` needs.
#[derive(Clone, Copy)]
pub struct Drawn {
    bytes: [u8; MOST],
    length: usize,
}

impl Model for Drawn {
    ghost use Rattle.std.specs.Prelude.{◌≡◌, ℕ, ◌-◌, ◌≤◌, List, ◌++◌, length as len, take, drop, replicate};
    ghost use Rattle.std.proofs.Common.{arith, length-take-le, take-append-drop};

    ghost Value = { List ℕ };

    ghost view = { λ s. take s.length s.bytes };

    ghost invariant = { λ s. (s.length ≤ 5120) × (len s.bytes ≡ 5120) × (drop s.length s.bytes ≡ replicate (5120 - s.length) 0) };

    ghost inverse = { λ bs. record { length = len bs; bytes = bs ++ replicate (5120 - len bs) 0 } };

    ghost inverse_ok = { λ a h i.
        let all : len (take a.length a.bytes) ≡ a.length = length-take-le a.length a.bytes (omega (arith, h)) in
        let whole : take a.length a.bytes ++ replicate (5120 - len (take a.length a.bytes)) 0 ≡ a.bytes = rw (all, ← h.2) (take-append-drop a.length a.bytes) in
        record { length = all i; bytes = whole i } };
}

impl Drawn {
    fn nothing() -> Self
        ensures { result ≡ [] }
    {
        Drawn {
            bytes: [0; MOST],
            length: 0,
        }
    }

    fn push(&mut self, byte: u8)
        requires { length self.old < 5120 }
        ensures { self.new ≡ self.old ++ byte ∷ [] }
    {
        self.bytes[self.length] = byte;
        self.length += 1;
    }

    fn extend(&mut self, bytes: &[u8])
        requires { length self.old + length bytes.now ≤ 5120 }
        ensures { self.new ≡ self.old ++ bytes.now }
    {
        for byte in bytes {
            self.push(*byte);
        }
    }

    pub fn as_slice(&self) -> &[u8]
        ensures bytes { result.now ≡ self.now }
        ensures most { length result.now ≤ 5120 }
    {
        &self.bytes[..self.length]
    }
}

// The letters that changed, by rows from the left.
pub fn draw(old: &[u8; SHOWN], new: &[u8; SHOWN]) -> Drawn
    ensures { Draws old.now new.now result }
{
    let mut drawn = Drawn::nothing();
    for p in 0..SHOWN {
        stroke(old, new, p, &mut drawn);
    }
    drawn
}

// What a place asks, behind what is drawn: nothing where its letter stays, else the letter, and its address where the cursor is elsewhere.
fn stroke(old: &[u8; SHOWN], new: &[u8; SHOWN], p: usize, drawn: &mut Drawn)
    requires { (p < 640) × (length drawn.old + 8 ≤ 5120) }
    ensures { (drawn.new ≡ drawn.old ++ bytes_of (strokes_at old.now new.now p)) × (length drawn.new ≤ length drawn.old + 8) }
{
    if !changed(old, new, p) {
        return;
    }
    let letter = report::letter_of(new[p]);
    if !apart(old, new, p) {
        drawn.push(letter);
        return;
    }
    drawn.extend(&address(p));
    drawn.push(letter);
}

// Whether another letter is to stand at a place.
fn changed(old: &[u8; SHOWN], new: &[u8; SHOWN], p: usize) -> bool
    requires { p < 640 }
    ensures { result ≡ changed old.now new.now p }
{
    report::letter_of(old[p]) != report::letter_of(new[p])
}

// Whether the terminal's cursor is not there already, behind the letter of the place before.
fn apart(old: &[u8; SHOWN], new: &[u8; SHOWN], p: usize) -> bool
    requires { p < 640 }
    ensures { result ≡ apart old.now new.now p }
{
    if p % 80 == 0 {
        return true;
    }
    !changed(old, new, p - 1)
}

// The bytes that put the terminal's cursor at a place.
pub fn address(p: usize) -> [u8; 7]
    requires { p < 640 }
    ensures { result ≡ address_of p }
{
    let row = (p / 80) as u8;
    let column = (p % 80) as u8 + 1;
    [27, 91, 49 + row, 59, 48 + column / 10, 48 + column % 10, 72]
}
