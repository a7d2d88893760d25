// P5, the marks of the selected screen's lines: 1 for each that runs on into the next. They are lent whole, those of both screens, a number each; line
// l's is bit l - 1.
ghost use Rattle.std.specs.Prelude.{◌≡◌, ◌&&◌, not, ◌%◌, ◌*◌, ◌+◌, ◌/◌, ◌<◌, ◌^◌, ◌≤◌, eqb, ltb, get_or};
ghost use Rattle.model.specs.Marks.{end_of, end_unmarked, mark_in, running_on, unmarked_from};
ghost use Rattle.ground.specs.Logical.{Remarks, carried};

use super::{Frame, Way};

// A number with one bit set, the lowest being 0.
fn bit(n: u8) -> u64
    requires { n < 64 }
    ensures { result ≡ 2 ^ n }
{
    1u64 << n
}

// So many of a number's lowest bits.
fn lowest(number: u64, count: u8) -> u64
    requires { count < 64 }
    ensures { result ≡ number % 2 ^ count }
{
    number & (bit(count) - 1)
}

// A number without that many, the rest from another bit on.
fn moved(number: u64, off: u8, to: u8) -> u64
    requires { (off < 64) × (to < 64) }
    ensures { result ≡ number / 2 ^ off * 2 ^ to % 2 ^ 64 }
{
    number >> off << to
}

// "Printing in the last column sets the mark on the line left."
pub fn run_on(frame: Frame, line: u8, marks: &mut [u64; 2])
    requires le_line { (1 ≤ line) × (line ≤ 48) }
    requires screen_bound { frame.screen < 2 }
    ensures { Remarks frame.screen (running_on line) marks.old marks.new }
{
    let k = frame.screen;
    let number = marks[k];
    marks[k] = number | bit(line - 1);
}

// "Clears those marks": none from one line through another.
pub(crate) fn unmark(frame: Frame, from: u8, to: u8, marks: &mut [u64; 2])
    requires le_from { (1 ≤ from) × ((from ≤ to) × (to ≤ 48)) }
    requires screen_bound { frame.screen < 2 }
    ensures { Remarks frame.screen (unmarked_from from to) marks.old marks.new }
{
    let k = frame.screen;
    let number = marks[k];
    marks[k] = moved(number, to, to) | lowest(number, from - 1);
}

// A line's mark is cleared, if there is such a line.
fn unmark_at(frame: Frame, line: u8, marks: &mut [u64; 2])
    requires line_bound { line ≤ 48 }
    requires screen_bound { frame.screen < 2 }
    ensures { Remarks frame.screen (unmarked_from line line) marks.old marks.new }
{
    if 1 <= line {
        unmark(frame, line, line, marks);
    }
}

// 144, 145: "the line above the region (if any) and the region's last two lines (or only line) end unmarked".
pub(crate) fn unmark_ends(frame: Frame, from: u8, count: u8, marks: &mut [u64; 2])
    requires le_count { (1 ≤ count) × (from + count ≤ 48) }
    requires screen_bound { frame.screen < 2 }
    ensures { Remarks frame.screen (end_unmarked from count) marks.old marks.new }
{
    let last = from + count;
    unmark_at(frame, last, marks);
    unmark_at(frame, last - 1, marks);
    unmark_at(frame, from, marks);
}

// "Marks move with lines": up, the last line unmarked, or down, the first.
pub(crate) fn carry(frame: Frame, way: Way, from: u8, count: u8, marks: &mut [u64; 2])
    requires le_count { (1 ≤ count) × (from + count ≤ 48) }
    requires screen_bound { frame.screen < 2 }
    ensures { Remarks frame.screen (carried way from count) marks.old marks.new }
{
    let k = frame.screen;
    let number = marks[k];
    let last = from + count;
    let others = moved(number, last, last) | lowest(number, from);
    match way {
        Way::Up => marks[k] = others | moved(lowest(number, last), from + 1, from),
        Way::Down => marks[k] = others | moved(lowest(number, last - 1), from, from + 1),
    }
}

// Whether a line above the last runs on.
fn runs(frame: Frame, line: u8, marks: &[u64; 2]) -> bool
    requires le_line { (1 ≤ line) × (line ≤ 48) }
    requires screen_bound { frame.screen < 2 }
    ensures { result ≡ (ltb line frame.lines && not (eqb (mark_in (get_or marks.now frame.screen 0) line) 0)) }
{
    let k = frame.screen;
    let number = marks[k];
    (line < frame.lines) & ((number >> (line - 1)) % 2 != 0)
}

// "The first unmarked line at or after" a line. A `for` was tried: mixed-200 took 1.05 of its time.
pub(crate) fn end_of(frame: Frame, line: u8, marks: &[u64; 2]) -> u8
    requires le_line { (1 ≤ line) × ((line ≤ frame.lines) × (frame.lines ≤ 48)) }
    requires screen_bound { frame.screen < 2 }
    ensures { result ≡ end_of (mark_in (get_or marks.now frame.screen 0)) frame.lines line }
{
    let mut end = line;
    while runs(frame, end, marks) {
        end += 1;
    }
    end
}
