// "the rows without trailing blanks (codes outside 32 to 126 as a dot)"
ghost use Rattle.std.specs.Prelude.{◌≡◌};
ghost use Rattle.report.specs.Letters.{letter};

use crate::say;
use model::SHOWN;

// The eight rows of the shown screen, each a line with its number.
pub fn say_rows(out: &impl Print, shown: &[u8; SHOWN]) {
    for (row, number) in shown.chunks(80).zip(1..=8u8) {
        say_row(out, number, row);
    }
}

// The line after a row's number starts with a blank, which goes too where the row is blank.
fn say_row(out: &impl Print, number: u8, row: &[u8]) {
    let _ = out.print(number);
    let mut line = [b' '; 81];
    for (letter, code) in line[1..].iter_mut().zip(row) {
        *letter = letter_of(*code);
    }
    say(out, line.trim_ascii_end());
    say(out, b"\n");
}

// The letter of a code: "codes outside 32 to 126 as a dot".
pub fn letter_of(code: u8) -> u8
    ensures { result ≡ letter code }
{
    match code {
        32..=126 => code,
        _ => b'.',
    }
}
