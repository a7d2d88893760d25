// Which sequences are accepted: 11, "a parameter is outside its range", then 13.
#![tactic(auto)]

ghost use Rattle.std.specs.Prelude.{◌+◌, ◌<◌, ◌&&◌, cond, ◌≡◌, [], ◌∷◌, eqb, leb};
ghost use Rattle.model.specs.Dot.{two_bytes};
ghost use Rattle.model.specs.Sequences.{code_of};
ghost use Rattle.model.specs.Judging.{fitting, judged, judged_ranges, line_ranges, ranges};
ghost use Rattle.model.specs.Checks.{free, passes, range};
ghost use Rattle.judging.specs.Judging.{Finds, FindsFrom, verdict};

use model::{Item, Limits, Sequence};

// What a read item is once it is judged.
pub fn judge(limits: Limits, room: usize, item: Item) -> Item
    ensures { result ≡ judged item limits room }
{
    match item {
        Item::Sequence(q) => match check(limits, q) {
            Ok(()) => fit(limits.mode, room, q),
            Err(parameter) => Item::Refused {
                number: 11,
                parameter,
            },
        },
        _ => item,
    }
}

// 13: "ESC P with fewer than 656 bytes of printer room left in this call", in mode 3 "under 3,840".
fn fit(mode: u8, room: usize, q: Sequence) -> Item
    ensures { result ≡ fitting mode (Item.Sequence q) room }
{
    match q {
        Sequence::Copy => {
            if room < tables::copy_size(mode) {
                Item::Refused {
                    number: 13,
                    parameter: 0,
                }
            } else {
                Item::Sequence(q)
            }
        }
        _ => Item::Sequence(q),
    }
}

// Whether all parameters are in their ranges; if not, the number of the first that is not. Parameters are counted from 1 after the second
// byte (208: the mode byte is 1); the sequences that are not named here have none that is judged. What is idle in the mode is not judged,
// asked in the arms and not before them, so that a sequence costs one `match`.
fn check(limits: Limits, q: Sequence) -> Result<(), u8>
    ensures { Finds (judged_ranges q limits) result }
{
    match q {
        Sequence::Put { line, column } => placing(limits, line, column),
        Sequence::Charset(n) => in_range(1, tables::charset(n)),
        Sequence::LinesUp { from, count } => region(limits, from, count),
        Sequence::LinesDown { from, count } => region(limits, from, count),
        Sequence::Step(n) => in_range(1, within(1, n, limits.height) | (limits.mode == 3)),
        Sequence::Tracking(n) => in_range(1, within(0, n, 1) | (limits.mode == 3)),
        Sequence::DrawLine { .. } => { if limits.mode == 3 { stroke(q) } else { Ok(()) } }
        Sequence::DrawDot { p1, p2, p3, p4 } => dot(limits.mode, p1, p2, p3, p4),
        Sequence::Mode0 { lines1, lines2 } => two_screens(lines1, lines2),
        Sequence::Mode1 { lines } => in_range(2, within(16, lines, 48)),
        Sequence::Mode2 { lines, columns, .. } => {
            both(2, within(8, lines, 48), within(1, columns, 78))
        }
        Sequence::Select(n) => in_range(1, within(0, n, 1) | (limits.mode == 3)),
        Sequence::Cover { row, column, .. } => { both(1, within(1, row, 8), within(1, column, 80)) }
        Sequence::Display(n) => in_range(1, within(0, n, 1) | (limits.mode == 3)),
        Sequence::CursorKind(n) => in_range(1, within(0, n, 3) | (limits.mode == 3)),
        Sequence::Pattern { code, .. } => in_range(1, within(224, code, 254)),
        Sequence::Repeat(n) => in_range(1, within(0, n, 1)),
        Sequence::RepeatDelay(n) => in_range(1, within(1, n, 127)),
        Sequence::RepeatInterval(n) => in_range(1, within(1, n, 127)),
        Sequence::Shift(n) => in_range(1, tables::shift(n)),
        _ => Ok(()),
    }
}

// Of one parameter that is judged: its number, if it is not in its range.
fn in_range(number: u8, good: bool) -> Result<(), u8>
    ensures { result ≡ verdict good number }
{
    if good { Ok(()) } else { Err(number) }
}

// Of two, one behind the other: both are looked at, for with an exit between them short pieces take 1.11 of the time.
fn both(number: u8, first: bool, next: bool) -> Result<(), u8>
    requires { number < 255 }
    ensures { result ≡ verdict (first && next) (cond first (number + 1) number) }
{
    in_range(if first { number + 1 } else { number }, first & next)
}

// 61: line and column of the selected screen, each sent 31 higher.
fn placing(limits: Limits, line: u8, column: u8) -> Result<(), u8>
    ensures { Finds (ranges (Sequence.Put line column) limits) result }
{
    both(
        1,
        shifted(line, limits.lines),
        shifted(column, limits.columns),
    )
}

// 198 in mode 3: its start, its end and its function; the mask is free. Any other sequence has none that is judged here.
fn stroke(q: Sequence) -> Result<(), u8>
    ensures { (s : Limits) → Finds (cond (eqb (code_of q) 198) (ranges q s) []) result }
{
    match q {
        Sequence::DrawLine {
            p1,
            p2,
            p3,
            p4,
            p5,
            p6,
            p7,
            p8,
            p9: _,
            p10: _,
            p11,
        } => {
            point(2, p1, p2, p3, p4)?;
            point(6, p5, p6, p7, p8)?;
            in_range(11, within(1, p11, 3))
        }
        _ => Ok(()),
    }
}

// 199, judged in mode 3 alone: "sets (1) or clears (0) a dot, vertical 0 to 63, horizontal 0 to 479".
fn dot(mode: u8, p1: u8, p2: u8, p3: u8, p4: u8) -> Result<(), u8>
    ensures { (s : Limits) → s.mode ≡ mode → Finds (judged_ranges (Sequence.DrawDot p1 p2 p3 p4) s) result }
{
    if mode != 3 {
        return Ok(());
    }
    in_range(1, within(0, p1, 1))?;
    in_range(2, within(0, p2, 63))?;
    in_range(4, up_to(p3, p4, 479))
}

// Of a dot of 198, horizontal and vertical, each "named by its low byte": the first one's number.
fn point(number: u8, h1: u8, h2: u8, v1: u8, v2: u8) -> Result<(), u8>
    requires { number < 250 }
    ensures { FindsFrom number (range 0 (two_bytes h1 h2) 479 ∷ free ∷ range 0 (two_bytes v1 v2) 63 ∷ []) result }
{
    in_range(number, up_to(h1, h2, 479))?;
    in_range(number + 2, up_to(v1, v2, 63))
}

// A number of two bytes, from 0 on.
fn up_to(high: u8, low: u8, most: u16) -> bool
    ensures { result ≡ passes (range 0 (two_bytes high low) most) }
{
    tables::two_bytes(high, low) <= most
}

fn within(least: u8, n: u8, most: u8) -> bool
    ensures { result ≡ (leb least n && leb n most) }
{
    (least..=most).contains(&n)
}

// 61: "bytes m+31, n+31"; each from 1 on.
fn shifted(n: u8, most: u8) -> bool
    ensures { result ≡ (leb 32 n && leb n (most + 31)) }
{
    (32..=most as usize + 31).contains(&(n as usize))
}

// 144, 145: "a 0 to R−1, m 1 to R, a+m at most R", the sum with m.
fn region(limits: Limits, from: u8, count: u8) -> Result<(), u8>
    ensures { Finds (line_ranges from count limits) result }
{
    let lines = limits.lines as usize;
    let end = from as usize + count as usize;
    both(
        1,
        within(0, from, limits.lines.saturating_sub(1)),
        within(1, count, limits.lines) & (end <= lines),
    )
}

// 208 with mode 0: "each at least 8, sum at most 48", the sum with the later.
fn two_screens(lines1: u8, lines2: u8) -> Result<(), u8>
    ensures { (s : Limits) → Finds (ranges (Sequence.Mode0 lines1 lines2) s) result }
{
    let sum = lines1 as usize + lines2 as usize;
    both(2, 8 <= lines1, (8 <= lines2) & (sum <= 48))
}
