// The cursor of the selected screen: storing where it stands, and moving it.
#![tactic(auto)]

pub mod window;

ghost use Rattle.std.specs.Prelude.{◌≡◌, ◌-◌, ◌≤◌, max};
ghost use Rattle.model.specs.Rules.{late_step, stored, down, onward, right};
ghost use Rattle.ground.specs.Frame.{LayerOf, Ready, Stands};
ghost use Rattle.ground.specs.Acts.{Acts, ActsWith, Reads};
ghost use Rattle.ground.specs.Here.{shown_here};
ghost use Rattle.cursor.specs.Uncovers.{Uncovers};

use ground::{Frame, lines, logical, marks, places};
use model::{Place, SHOWN};

// The place that shows the cursor's cell, or 640 for none, as the rules say it (`shown_at`). Only in mode 1 is the window taller than the rows: the lines behind
// those stand in the right half.
pub fn shown(frame: Frame, place: Place) -> usize
    requires { Stands frame place }
    ensures { Reads shown_here frame place result }
{
    if place.line < place.top {
        return SHOWN;
    }
    let row = place.line - place.top;
    if row < frame.rows {
        return usize::from(row) * 80 + usize::from(place.column - 1) + usize::from(frame.shift);
    }
    if row < frame.height {
        return usize::from(row - frame.rows) * 80 + usize::from(place.column) + 40;
    }
    SHOWN
}

// The places that show so many cells from the cursor's on are emptied. Where the layer is known to be empty they are not looked for.
pub fn uncover(frame: Frame, place: Place, count: usize, layer: &mut [u8])
    requires stands { Stands frame place }
    requires layer_of { LayerOf frame layer.old }
    ensures { Uncovers frame place count layer.old layer.new }
{
    if frame.bare {
        return;
    }
    marks::empty_from(frame, shown(frame, place), count, layer);
}

// "Printing stores the byte, empties the layer at the place where the picture shows that cell."
pub fn store(frame: Frame, place: Place, code: u8, cells: &mut [u8], layer: &mut [u8])
    requires { Ready frame place cells.old layer.old }
    ensures { Acts (stored code) frame place place cells.old layer.old cells.new layer.new }
{
    let at = lines::cell(frame, place);
    cells[at] = code;
    marks::empty_at(frame, shown(frame, place), layer);
}

// "One column back, staying at column 1."
pub fn before(column: u8) -> u8
    ensures { result ≡ max 1 (column - 1) }
{
    column.saturating_sub(1).max(1)
}

// "One line down"; below the last line the screen is lifted. Either way the cursor is put anew and is not late, and there is a line above
// its own.
pub fn down(
    frame: Frame,
    place: Place,
    cells: &mut [u8],
    layer: &mut [u8],
    marks: &mut [u64; 2],
) -> Place
    requires ready { Ready frame place cells.old layer.old }
    ensures { (ActsWith down frame place result cells.old layer.old marks.old cells.new layer.new marks.new) × (2 ≤ result.line) }
{
    if place.line < frame.lines {
        places::put_at(place, place.line + 1, place.column)
    } else {
        lines::lift(frame, place, cells, layer, marks);
        places::put_at(place, place.line, place.column)
    }
}

// "Moves right. From the last column it goes to column 1 of the next line"; P9, rule 2: there it is late.
pub fn right(
    frame: Frame,
    place: Place,
    cells: &mut [u8],
    layer: &mut [u8],
    marks: &mut [u64; 2],
) -> Place
    requires ready { Ready frame place cells.old layer.old }
    ensures { ActsWith right frame place result cells.old layer.old marks.old cells.new layer.new marks.new }
{
    if place.column < frame.columns {
        places::put_at(place, place.line, place.column + 1)
    } else if frame.rule == 2 {
        places::late_at(place)
    } else {
        onward(frame, place, cells, layer, marks)
    }
}

// P9: "the next printed character first steps to the next line", where the cursor is late.
pub fn late_step(
    frame: Frame,
    place: Place,
    cells: &mut [u8],
    layer: &mut [u8],
    marks: &mut [u64; 2],
) -> Place
    requires ready { Ready frame place cells.old layer.old }
    ensures { ActsWith late_step frame place result cells.old layer.old marks.old cells.new layer.new marks.new }
{
    if place.late == 1 {
        onward(frame, place, cells, layer, marks)
    } else {
        place
    }
}

// The step to column 1 of the next line, the one step of both rules, and "the mark on the line left": after the step, or a lift, that is
// the line above.
fn onward(
    frame: Frame,
    place: Place,
    cells: &mut [u8],
    layer: &mut [u8],
    marks: &mut [u64; 2],
) -> Place
    requires ready { Ready frame place cells.old layer.old }
    ensures { ActsWith onward frame place result cells.old layer.old marks.old cells.new layer.new marks.new }
{
    let first = places::put_at(place, place.line, 1);
    let next = down(frame, first, cells, layer, marks);
    logical::run_on(frame, next.line - 1, marks);
    next
}
