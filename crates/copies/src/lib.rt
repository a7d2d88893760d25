// ESC 80, the printed copy: the picture of what stands, row by row, or in mode 3 the dots.
#![tactic(auto)]

ghost use Rattle.std.specs.Prelude.{◌≡◌, ℕ, ◌+◌, ◌≤◌, List, length};
ghost use Rattle.model.specs.Bytes.{put};
ghost use Rattle.model.specs.Sound.{Sound};
ghost use Rattle.model.specs.State.{state};
ghost use Rattle.model.specs.Picture.{copied, copy_size_of, picture_copy};
ghost use Rattle.copies.specs.Copy.{row_copied};

use model::{CELLS, DOTS, LAYER, SHOWN, Settings};
use views::rows::{ROW, ROWS};

// A row of a printed copy with the two codes behind it.
const COPY_ROW: usize = 82;

// ESC 80: "In mode 3, 80 appends the 3,840 bytes" of the dots, secret or not; else the picture.
pub fn copy(
    settings: Settings,
    cells: &[u8; CELLS],
    layer: &[u8; LAYER],
    dots: &[u8; DOTS],
    printer: &mut [u8],
    from: usize,
)
    requires { (Sound settings) × (from + copy_size_of settings.mode ≤ length printer.old) }
    ensures { printer.new ≡ put from (copied (state settings cells.now layer.now dots.now)) printer.old }
{
    if settings.mode == 3 {
        store::copy_many(printer, from, dots, 0, DOTS);
        return;
    }
    copy_picture(settings, cells, layer, printer, from);
}

// "appends the picture at that moment, 8 rows of 80 with codes below 32 as 32, each followed by 13, 10".
fn copy_picture(
    settings: Settings,
    cells: &[u8; CELLS],
    layer: &[u8; LAYER],
    printer: &mut [u8],
    from: usize,
)
    requires { (Sound settings) × (from + 656 ≤ length printer.old) }
    ensures { (dots : List ℕ) → printer.new ≡ put from (picture_copy (state settings cells.now layer.now dots)) printer.old }
{
    let mut picture = [0u8; SHOWN];
    let place = views::place_of(settings, settings.selected);
    let panes = views::view_of(settings, place.top);
    paint::paint_under(settings.secret, panes, cells, &mut picture);
    paint::paint_keys(settings, &mut picture);
    paint::lay_over(settings.secret, false, layer, &mut picture);
    for row in 0..ROWS {
        copy_row(&picture, row * ROW, printer, from + row * COPY_ROW);
    }
}

// A row of a printed copy: the 80 codes of `picture` from `at` on, "codes below 32 as 32", then 13, 10.
fn copy_row(picture: &[u8; SHOWN], at: usize, printer: &mut [u8], from: usize)
    requires { (at + 80 ≤ 640) × (from + 82 ≤ length printer.old) }
    ensures { printer.new ≡ put from (row_copied picture.now at) printer.old }
{
    for i in 0..ROW {
        printer[from + i] = picture[at + i].max(32);
    }
    printer[from + ROW] = 13;
    printer[from + ROW + 1] = 10;
}
