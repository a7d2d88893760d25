// A run of printed bytes: the cursor goes over them with no settings at hand, and as many as its line has room for are copied at once.
#![tactic(auto)]

ghost use Rattle.std.specs.Prelude.{◌≡◌, ◌+◌, ◌<◌, ◌≤◌, false, true, drop, length, take};
ghost use Rattle.ground.specs.Frame.{Ready, Stands};
ghost use Rattle.ground.specs.Acts.{Acts, Reads};
ghost use Rattle.ground.specs.Here.{lost};
ghost use Rattle.runs.specs.Run.{Fitting, Part, Ran, WholeRun, all_print?, printed_all, prints?};

use cursor::window;
use ground::{Frame, lines, places};
use model::Place;

// Printable bytes are looked for in blocks of so many, and behind one that prints in long blocks.
const BLOCK: usize = 16;

const LONG: usize = 128;

// Where a run ends: the place, and the offset of the byte behind it.
#[derive(Clone, Copy)]
pub struct Run {
    pub place: Place,
    pub at: usize,
}

// Whether a byte is there, and prints.
fn prints(message: &[u8], at: usize) -> bool
    ensures { result ≡ prints? message.now at }
{
    message.get(at).copied().unwrap_or(0) >= 32
}

// Whether so many bytes are there, and all print. The loop never stops early, so that a compiler tests them all at once.
fn block_prints(message: &[u8], at: usize, size: usize) -> bool
    requires { at ≤ length message.now }
    ensures { result ≡ all_print? message.now at size }
{
    if message.len() - at < size {
        return false;
    }
    let mut all = true;
    for k in 0..size {
        all = all & (message[at + k] >= 32);
    }
    all
}

// Where the run that begins at an offset ends: at the first byte that does not print, or behind the last of the message. No range gives its steps of 16, 128 and 1.
pub fn run_end(message: &[u8], at: usize) -> usize
    requires { prints? message.now at ≡ true }
    ensures { WholeRun message.now at result }
{
    let mut i = at + 1;
    while block_prints(message, i, BLOCK) {
        i += BLOCK;
        while block_prints(message, i, LONG) {
            i += LONG;
        }
    }
    while prints(message, i) {
        i += 1;
    }
    i
}

// Bytes that stay in the cursor's line, at least one, while the window does not move: they are copied, and the places that show them emptied.
fn print_chunk(
    frame: Frame,
    place: Place,
    message: &[u8],
    at: usize,
    count: usize,
    cells: &mut [u8],
    layer: &mut [u8],
) -> Place
    requires ready { Ready frame place cells.old layer.old }
    requires reads { Reads lost frame place false }
    requires le_count { (1 ≤ count) × ((place.column + count ≤ frame.columns) × (at + count ≤ length message.now)) }
    ensures { Acts (printed_all (take count (drop at message.now))) frame place result cells.old layer.old cells.new layer.new }
{
    let from = lines::cell(frame, place);
    store::copy_in(cells, from, message, at, count);
    cursor::uncover(frame, place, count, layer);
    places::put_at(place, place.line, place.column + (count as u8))
}

// Of so many bytes, those that the cursor's line has room for, its last column with them; one where the window misses the cursor and is about
// to move.
fn fitting(frame: Frame, place: Place, count: usize) -> usize
    requires stands { Stands frame place }
    requires le_count { 1 ≤ count }
    ensures { Fitting frame place count result }
{
    if window::misses(frame, place) {
        1
    } else {
        count.min(usize::from(frame.columns - place.column) + 1)
    }
}

// Of the bytes up to `end` those that the cursor's line has room for, copied at once, behind a step that waited: only behind the last of them
// the cursor may leave its line, and the window may move.
fn print_line(
    frame: Frame,
    place: Place,
    message: &[u8],
    at: usize,
    end: usize,
    cells: &mut [u8],
    layer: &mut [u8],
    marks: &mut [u64; 2],
) -> Run
    requires ready { Ready frame place cells.old layer.old }
    requires at_lt_end { (at < end) × (end ≤ length message.now) }
    ensures { Part message.now at end frame place result cells.old layer.old marks.old cells.new layer.new marks.new }
{
    let first = cursor::late_step(frame, place, cells, layer, marks);
    let count = fitting(frame, first, end - at);
    let from = lines::cell(frame, first);
    store::copy_in(cells, from, message, at, count);
    cursor::uncover(frame, first, count, layer);
    let last = places::further(first, (count - 1) as u8);
    let right = cursor::right(frame, last, cells, layer, marks);
    let next = window::track(frame, right, layer);
    Run {
        place: next,
        at: at + count,
    }
}

// The bytes up to `end` if they stay in the cursor's line short of its last column, where no cursor is late, and the window does not move; else
// as many as the line has room for.
fn print_part(
    frame: Frame,
    place: Place,
    message: &[u8],
    at: usize,
    end: usize,
    cells: &mut [u8],
    layer: &mut [u8],
    marks: &mut [u64; 2],
) -> Run
    requires ready { Ready frame place cells.old layer.old }
    requires at_lt_end { (at < end) × (end ≤ length message.now) }
    ensures { Part message.now at end frame place result cells.old layer.old marks.old cells.new layer.new marks.new }
{
    let count = end - at;
    if (usize::from(frame.columns - place.column) < count) | window::misses(frame, place) {
        print_line(frame, place, message, at, end, cells, layer, marks)
    } else {
        let next = print_chunk(frame, place, message, at, count, cells, layer);
        Run {
            place: next,
            at: end,
        }
    }
}

// The run that begins at an offset: the byte there, and all behind it up to the first that does not print.
pub fn print_run(
    frame: Frame,
    place: Place,
    message: &[u8],
    at: usize,
    cells: &mut [u8],
    layer: &mut [u8],
    marks: &mut [u64; 2],
) -> Run
    requires ready { Ready frame place cells.old layer.old }
    requires at_value { prints? message.now at ≡ true }
    ensures { Ran message.now at frame place result cells.old layer.old marks.old cells.new layer.new marks.new }
{
    let end = run_end(message, at);
    let mut p = place;
    let mut i = at;
    while i < end {
        let part = print_part(frame, p, message, i, end, cells, layer, marks);
        p = part.place;
        i = part.at;
    }
    Run { place: p, at: i }
}
