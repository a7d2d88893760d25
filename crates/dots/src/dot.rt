// One dot, and all dots.
ghost use Rattle.std.specs.Prelude.{◌≡◌, ℕ, ◌+◌, ◌*◌, ◌/◌, ◌<◌, length, replicate};
ghost use Rattle.model.specs.Dot.{OnScreen, acted, bit_of, dot_at, wanted, weight, with_bit, with_dot};

use model::Point;
use store::fill;

// "199 sets (1) or clears (0) a dot"
pub fn put_dot(dots: &mut [u8], p: Point, on: u8)
    requires { (OnScreen p) × ((on < 2) × (length dots.old ≡ 3840)) }
    ensures { dots.new ≡ with_dot on p.v p.h dots.old }
{
    let row = 60 * (p.v as usize);
    let h = p.h as usize;
    if on == 1 {
        change_dot(dots, row, h, 2);
    } else {
        change_dot(dots, row, h, 1);
    }
}

// A dot: 0 off, 1 on.
pub fn dot_at(dots: &[u8], v: usize, h: usize) -> u8
    requires { (length dots.now ≡ 3840) × ((v < 64) × (h < 480)) }
    ensures { (result ≡ dot_at v h dots.now) × (result < 2) }
{
    dots[60 * v + h / 8] / weight_of(h) % 2
}

// "clear the dots"
pub fn wipe(dots: &mut [u8])
    ensures { dots.new ≡ replicate (length dots.old) 0 }
{
    fill(dots, 0);
}

// 198's function on the dot in column `h` of the row whose first byte is `row`.
pub(crate) fn change_dot(dots: &mut [u8], row: usize, h: usize, function: u8)
    requires { (row + h / 8 < 3840) × (length dots.old ≡ 3840) }
    ensures { (v : ℕ) → row ≡ 60 * v → dots.new ≡ acted function v h dots.old }
{
    let at = row + h / 8;
    dots[at] = change(dots[at], h, function);
}

// The byte with the bit of column `h` as the function wants it: by bits, since quotients and products take longer.
fn change(byte: u8, h: usize, function: u8) -> u8
    ensures { result ≡ with_bit (wanted function (bit_of (weight h) byte)) (weight h) byte }
{
    let w = weight_of(h);
    if function == 1 {
        return (byte | w) - w;
    }
    if function == 2 {
        return byte | w;
    }
    byte ^ w
}

// "leftmost dot in the highest bit"
fn weight_of(h: usize) -> u8
    ensures { result ≡ weight h }
{
    128 >> (h % 8)
}
