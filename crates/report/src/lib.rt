// What the programs print, to the output that they hand over: an answer, what stands, and the rows of the shown screen. What is called `say` only
// writes: it hands nothing back, lets a write go that fails, and its contract is that it is safe and ends.
#![tactic(auto)]

mod adler;
mod rows;
mod standing;

pub use adler::adler32;
use model::Answer;
pub use rows::{letter_of, say_rows};
pub use standing::say_standing;

// The words alone.
pub fn say(out: &impl Print, words: &[u8]) {
    let _ = out.write_all(words);
}

// The words, and a number after them.
pub fn say_number(out: &impl Print, words: &[u8], number: u64) {
    let _ = out.write_all(words);
    let _ = out.print(number);
}

// The same for a byte. (Over any `Display` both would be one, but the programs' lines that are one print! need neither.)
pub fn say_byte(out: &impl Print, words: &[u8], byte: u8) {
    say_number(out, words, u64::from(byte));
}

// An answer as `show` prints it, with no line end.
pub fn say_answer(out: &impl Print, answer: Answer) {
    let Answer {
        number,
        taken,
        accepted,
        refused,
        first,
        offset,
        ..
    } = answer;
    let _ = print!(out;
        "answer {number} taken {taken} accepted {accepted} refused {refused} first {first} at {offset}"
    );
}
