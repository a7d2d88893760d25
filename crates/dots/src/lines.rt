// A line of dots.
ghost use Rattle.std.specs.Prelude.{◌≡◌, ℕ, ◌+◌, ◌*◌, ◌/◌, ◌≤◌, ◌<◌, length};
ghost use Rattle.model.specs.Dot.{OnScreen};
ghost use Rattle.model.specs.Strokes.{distance, lined, mask_bit, stepped};
ghost use Rattle.dots.specs.Walk.{Carried, Measured, shifted};

use crate::dot::change_dot;
use model::Point;

// What is carried from dot to dot: the dot's number, the first byte of its row (so that no dot costs a product), its column, and the
// remainder of 2kd+N by 2N (so that none costs a quotient). In `usize` a compiler takes it apart into registers, in `u16` it does not.
#[derive(Clone, Copy)]
pub(crate) struct Reached {
    k: usize,
    row: usize,
    h: usize,
    rest: usize,
}

// 198: the line's dots whose mask bit is 1, by the function; the mask is 256 times its first byte and its second.
pub fn line(dots: &mut [u8], from: Point, to: Point, mask: u16, function: u8)
    requires { (OnScreen from) × ((OnScreen to) × (length dots.old ≡ 3840)) }
    ensures { dots.new ≡ lined function mask from to dots.old }
{
    let across = apart(from.h, to.h);
    let down = apart(from.v, to.v);
    if down <= across {
        draw(dots, from, to, true, across, down, mask, function);
    } else {
        draw(dots, from, to, false, down, across, mask, function);
    }
}

// The same with the longer distance `n` and the shorter `d`; `flat` if the longer one is horizontal.
fn draw(
    dots: &mut [u8],
    from: Point,
    to: Point,
    flat: bool,
    n: usize,
    d: usize,
    mask: u16,
    function: u8,
)
    requires measured { (Measured from to flat n d) × ((OnScreen from) × (OnScreen to)) }
    requires dots_len { length dots.old ≡ 3840 }
    ensures { dots.new ≡ lined function mask from to dots.old }
{
    let mut at = Reached {
        k: 0,
        row: 60 * (from.v as usize),
        h: from.h as usize,
        rest: n,
    };
    step(dots, at, mask, function);
    for _ in 0..n {
        at = next(at, from, to, flat, n, d);
        step(dots, at, mask, function);
    }
}

// The dot that is reached, if its mask bit says so.
fn step(dots: &mut [u8], at: Reached, mask: u16, function: u8)
    requires { (at.row + at.h / 8 < 3840) × (length dots.old ≡ 3840) }
    ensures { (v : ℕ) → at.row ≡ 60 * v → dots.new ≡ stepped function mask at.k v at.h dots.old }
{
    if mask_bit(mask, at.k) == 1 {
        change_dot(dots, at.row, at.h, function);
    }
}

// "first byte's highest bit first"
fn mask_bit(mask: u16, k: usize) -> u16
    ensures { result ≡ mask_bit mask k }
{
    (mask >> (15 - k % 16)) % 2
}

// From dot k to dot k + 1: one along the longer axis, and one along the other where the remainder comes to 2N.
fn next(at: Reached, from: Point, to: Point, flat: bool, n: usize, d: usize) -> Reached
    requires measured { (Measured from to flat n d) × ((OnScreen from) × (OnScreen to)) }
    requires carried { (Carried from to flat n d at.k at.row at.h at.rest) × (at.k < n) }
    ensures { (result.k ≡ at.k + 1) × (Carried from to flat n d result.k result.row result.h result.rest) }
{
    let k = at.k + 1;
    let rest = at.rest + 2 * d;
    if 2 * n <= rest {
        return Reached {
            k,
            row: shift(from.v, to.v, at.row, 60),
            h: shift(from.h, to.h, at.h, 1),
            rest: rest - 2 * n,
        };
    }
    if flat {
        return Reached {
            k,
            row: at.row,
            h: shift(from.h, to.h, at.h, 1),
            rest,
        };
    }
    Reached {
        k,
        row: shift(from.v, to.v, at.row, 60),
        h: at.h,
        rest,
    }
}

// "towards the end", from `a` to `b`
fn shift(a: u16, b: u16, x: usize, by: usize) -> usize
    requires { (x + by < 4096) × (b < a → by ≤ x) }
    ensures { result ≡ shifted a b x by }
{
    if a <= b { x + by } else { x - by }
}

fn apart(a: u16, b: u16) -> usize
    ensures { result ≡ distance a b }
{
    if a <= b {
        (b - a) as usize
    } else {
        (a - b) as usize
    }
}
