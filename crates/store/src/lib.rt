// Regions of a byte slice: filled, blanked, moved by a line, copied into another slice. From 16 on, bytes that are to be copied are
// taken up whole into an array before they are laid down: so a compiler, which does not know whether two slices overlap, makes one wide move
// of both, and the array is never there.
#![tactic(auto)]

pub mod sizes;

ghost use Rattle.std.specs.Prelude.{◌≡◌, ◌+◌, ◌≤◌, length, take, drop, replicate, true, cond};
ghost use Rattle.model.specs.Bytes.{on_part, blanked, scrolled_up, scrolled_down, put};

use model::CELLS;

// Every byte of `region` becomes `value`. (By the slice's own `fill` lifts of 20 lines took 1.07 of the time, and streams in pieces 1.05.)
pub fn fill(region: &mut [u8], value: u8)
    ensures { region.new ≡ replicate (length region.old) value }
{
    for i in 0..region.len() {
        region[i] = value;
    }
}

// "blanks (32)": the `count` cells from index `from`.
pub fn blank(cells: &mut [u8], from: usize, count: usize)
    requires { from + count ≤ length cells.old }
    ensures { cells.new ≡ on_part from count blanked cells.old }
{
    fill(&mut cells[from..from + count], 32);
}

// Whether every byte of `region` is 0. The loop never stops early, so that a compiler compares many bytes at once.
pub fn all_zero(region: &[u8]) -> bool
    ensures { (result ≡ true → region.now ≡ replicate (length region.now) 0) × (region.now ≡ replicate (length region.now) 0 → result ≡ true) }
{
    let mut any = 0;
    for byte in region {
        any |= *byte;
    }
    any == 0
}

// "contents move up by one": of the `count` cells from `from`, in lines of `width`, the first line is lost and the last is blank.
pub fn scroll_up(cells: &mut [u8], from: usize, count: usize, width: usize)
    requires { (from + count ≤ length cells.old) × ((width ≤ count) × (count ≤ 3840)) }
    ensures { cells.new ≡ on_part from count (scrolled_up width) cells.old }
{
    scroll(&mut cells[from..from + count], width, false);
}

// "or down by one": the last line is lost and the first is blank.
pub fn scroll_down(cells: &mut [u8], from: usize, count: usize, width: usize)
    requires { (from + count ≤ length cells.old) × ((width ≤ count) × (count ≤ 3840)) }
    ensures { cells.new ≡ on_part from count (scrolled_down width) cells.old }
{
    scroll(&mut cells[from..from + count], width, true);
}

// The `count` bytes of `src` from index `at` are written into `dst` from index `from`: in blocks of 16, the last of which reaches
// back over the one before it, or one by one where there are fewer. (As one `copy_from_slice`, text of 200 bytes in mode 1 took 1.09 of the
// time, and mixed messages of 200 bytes 1.08.)
pub fn copy_in(dst: &mut [u8], from: usize, src: &[u8], at: usize, count: usize)
    requires { (from + count ≤ length dst.old) × (at + count ≤ length src.now) }
    ensures { dst.new ≡ put from (take count (drop at src.now)) dst.old }
{
    if count < 16 {
        copy_bytes(dst, from, src, at, count);
        return;
    }
    let last = count - 16;
    for i in (0..last).step_by(16) {
        copy_block(dst, from + i, src, at + i);
    }
    copy_block(dst, from + last, src, at + last);
}

// The same of up to 3,840 bytes at once: quicker from some hundreds on. (By `copy_from_slice` streams of 200 bytes in short pieces took 1.17 of
// the time.)
pub fn copy_many(dst: &mut [u8], from: usize, src: &[u8], at: usize, count: usize)
    requires { (from + count ≤ length dst.old) × ((at + count ≤ length src.now) × (count ≤ 3840)) }
    ensures { dst.new ≡ put from (take count (drop at src.now)) dst.old }
{
    let mut held = [0u8; CELLS];
    copy_bytes(&mut held, 0, src, at, count);
    copy_bytes(dst, from, &held, 0, count);
}

// A block of 16, through an array: see the head of this file.
fn copy_block(dst: &mut [u8], from: usize, src: &[u8], at: usize)
    requires { (from + 16 ≤ length dst.old) × (at + 16 ≤ length src.now) }
    ensures { dst.new ≡ put from (take 16 (drop at src.now)) dst.old }
{
    let mut held = [0u8; 16];
    copy_bytes(&mut held, 0, src, at, 16);
    copy_bytes(dst, from, &held, 0, 16);
}

// Byte by byte.
fn copy_bytes(dst: &mut [u8], from: usize, src: &[u8], at: usize, count: usize)
    requires { (from + count ≤ length dst.old) × (at + count ≤ length src.now) }
    ensures { dst.new ≡ put from (take count (drop at src.now)) dst.old }
{
    for i in 0..count {
        dst[from + i] = src[at + i];
    }
}

// The `count` bytes from index `from` are written in the same region from index `to`. (By `copy_within` a lift took 1.6 of the time; by two
// calls of `copy_from_slice`, mixed messages of 200 bytes took 1.05.)
fn move_within(region: &mut [u8], to: usize, from: usize, count: usize)
    requires { (to + count ≤ length region.old) × ((from + count ≤ length region.old) × (count ≤ 3840)) }
    ensures { region.new ≡ put to (take count (drop from region.old)) region.old }
{
    let mut held = [0u8; CELLS];
    copy_bytes(&mut held, 0, region, from, count);
    copy_bytes(region, to, &held, 0, count);
}

// A whole region moves by a line, up or down; the line that it leaves is blank.
fn scroll(region: &mut [u8], width: usize, down: bool)
    requires { (width ≤ length region.old) × (length region.old ≤ 3840) }
    ensures { region.new ≡ cond down scrolled_down scrolled_up width region.old }
{
    let kept = region.len() - width;
    if down {
        move_within(region, width, 0, kept);
        blank(region, 0, width);
    } else {
        move_within(region, 0, width, kept);
        blank(region, kept, width);
    }
}
