// Mode 3's dots in an ordinary terminal: 8 rows of 80 Braille letters, a letter for 6 columns of 8 rows of dots.
ghost use Rattle.std.specs.Prelude.{◌≡◌, ◌+◌, ◌≤◌, ◌<◌, length};
ghost use Rattle.model.specs.Bytes.{put};
ghost use Rattle.glass_drawing.specs.Curve.{letter_of, letters_to, pattern_of, raised, three, upper};

use model::DOTS;

// In rows 11 to 18 of the terminal.
pub fn say(out: &impl Print, dots: &[u8]) {
    if dots.len() != DOTS {
        return;
    }
    for row in 0..8 {
        let _ = print!(out; "\x1b[{};01H", row + 11);
        report::say(out, &row_of(dots, row));
    }
}

// The bytes of a row of letters, from 0: three for each.
fn row_of(dots: &[u8], row: usize) -> [u8; 240]
    requires { (length dots.now ≡ 3840) × (row < 8) }
    ensures { result ≡ letters_to dots.now row 80 }
{
    let mut bytes = [0u8; 240];
    for column in 0..80 {
        put_letter(&mut bytes, 3 * column, pattern_of(dots, row, column));
    }
    bytes
}

// A letter's three bytes in UTF-8, from U+2800 on.
fn put_letter(bytes: &mut [u8], at: usize, pattern: u8)
    requires { at + 3 ≤ length bytes.old }
    ensures { bytes.new ≡ put at (letter_of pattern) bytes.old }
{
    let letter = [226, 160 + pattern / 64, 128 + pattern % 64];
    store::copy_in(bytes, at, &letter, 0, 3);
}

// The eight points of a letter, each with its weight.
fn pattern_of(dots: &[u8], row: usize, column: usize) -> u8
    requires { (length dots.now ≡ 3840) × ((row < 8) × (column < 80)) }
    ensures { result ≡ pattern_of dots.now row column }
{
    let j = 4 * row;
    let k = 2 * column;
    let six = upper(dots, j, k) + 8 * upper(dots, j, k + 1);
    let seven = six + 64 * point(dots, j + 3, k);
    seven + 128 * point(dots, j + 3, k + 1)
}

// The upper three points of a column, with the weights of the left one.
fn upper(dots: &[u8], j: usize, k: usize) -> u8
    requires { (length dots.now ≡ 3840) × ((j + 2 < 32) × (k < 160)) }
    ensures { (result ≡ upper dots.now j k) × (result < 8) }
{
    point(dots, j, k) + 2 * point(dots, j + 1, k) + 4 * point(dots, j + 2, k)
}

// A point stands for 3 columns of 2 rows: 1 where any of these dots is on.
fn point(dots: &[u8], j: usize, k: usize) -> u8
    requires { (length dots.now ≡ 3840) × ((j < 32) × (k < 160)) }
    ensures { (result ≡ raised dots.now j k) × (result < 2) }
{
    let v = 2 * j;
    let h = 3 * k;
    u8::from(three(dots, v, h) + three(dots, v + 1, h) != 0)
}

// How many of three dots of a row are on.
fn three(dots: &[u8], v: usize, h: usize) -> u8
    requires { (length dots.now ≡ 3840) × ((v < 64) × (h + 2 < 480)) }
    ensures { (result ≡ three dots.now v h) × (result < 4) }
{
    dots::dot_at(dots, v, h) + dots::dot_at(dots, v, h + 1) + dots::dot_at(dots, v, h + 2)
}
