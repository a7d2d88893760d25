// The lines of the selected screen: moved, cleared and blanked. Each empties the layer.
ghost use Rattle.std.specs.Prelude.{◌≡◌, ◌+◌, ◌≤◌};
ghost use Rattle.model.specs.State.{State};
ghost use Rattle.model.specs.Screens.{columns_here, here, lines_here};
ghost use Rattle.model.specs.Marks.{end_of};
ghost use Rattle.model.specs.Rules.{blank_from, cleared, erased, lifted, marks_here, on_lines, shifted};
ghost use Rattle.ground.specs.Frame.{Ready, Stands};
ghost use Rattle.ground.specs.Acts.{Acts, ActsWith, except_dots};
ghost use Rattle.ground.specs.Here.{cell_in};
ghost use Rattle.ground.specs.Logical.{carried, scrolled};

use super::{Frame, Way, logical, marks, places, times};
use model::Place;

// The cursor's cell.
pub fn cell(frame: Frame, place: Place) -> usize
    requires { Stands frame place }
    ensures { result ≡ cell_in frame place }
{
    frame.base + times(place.line - 1, frame.columns) + usize::from(place.column - 1)
}

// "Within lines a+1 to a+m, contents move up or down by one": line a+1 is lost and line a+m is blank, or the other way round.
fn scroll(
    frame: Frame,
    place: Place,
    way: Way,
    from: u8,
    count: u8,
    cells: &mut [u8],
    layer: &mut [u8],
)
    requires ready { Ready frame place cells.old layer.old }
    requires le_count { (1 ≤ count) × (from + count ≤ frame.lines) }
    ensures { Acts (λ (st : State). on_lines from count (scrolled way (columns_here st)) st) frame place place cells.old layer.old cells.new layer.new }
{
    let start = frame.base + times(from, frame.columns);
    let size = times(count, frame.columns);
    let width = usize::from(frame.columns);
    marks::empty(frame, layer);
    match way {
        Way::Up => store::scroll_up(cells, start, size, width),
        Way::Down => store::scroll_down(cells, start, size, width),
    }
}

// A lift: the whole screen goes up, and its marks with it, which are moved first: it was a little quicker so.
pub fn lift(frame: Frame, place: Place, cells: &mut [u8], layer: &mut [u8], marks: &mut [u64; 2])
    requires ready { Ready frame place cells.old layer.old }
    ensures { ActsWith lifted frame place place cells.old layer.old marks.old cells.new layer.new marks.new }
{
    logical::carry(frame, Way::Up, 0, frame.lines, marks);
    scroll(frame, place, Way::Up, 0, frame.lines, cells, layer);
}

// 144, 145: "marks move with lines; the blank line, the line above the region (if any) and the region's last two lines .. end unmarked".
pub fn shift(
    frame: Frame,
    place: Place,
    way: Way,
    from: u8,
    count: u8,
    cells: &mut [u8],
    layer: &mut [u8],
    marks: &mut [u64; 2],
)
    requires ready { Ready frame place cells.old layer.old }
    requires le_count { (1 ≤ count) × (from + count ≤ frame.lines) }
    ensures { ActsWith (λ (st : State). shifted from count (scrolled way (columns_here st)) (carried way from count) st) frame place place cells.old layer.old marks.old cells.new layer.new marks.new }
{
    scroll(frame, place, way, from, count, cells, layer);
    logical::carry(frame, way, from, count, marks);
    logical::unmark_ends(frame, from, count, marks);
}

// 42: "blanks the screen, cursor home, top 1, layer empty"; its marks are cleared. The dots are not lent here.
pub fn clear(
    frame: Frame,
    place: Place,
    cells: &mut [u8],
    layer: &mut [u8],
    marks: &mut [u64; 2],
) -> Place
    requires ready { Ready frame place cells.old layer.old }
    ensures { ActsWith (except_dots cleared) frame place result cells.old layer.old marks.old cells.new layer.new marks.new }
{
    store::blank(cells, frame.base, times(frame.lines, frame.columns));
    marks::empty(frame, layer);
    logical::unmark(frame, 1, frame.lines, marks);
    places::home_place()
}

// So many cells from the cursor's on, which the screen has, become blank.
fn blank_from(frame: Frame, place: Place, count: usize, cells: &mut [u8], layer: &mut [u8])
    requires ready { Ready frame place cells.old layer.old }
    requires count_bound { cell_in frame place + count ≤ 3840 }
    ensures { Acts (blank_from count) frame place place cells.old layer.old cells.new layer.new }
{
    let from = cell(frame, place);
    store::blank(cells, from, count);
    marks::empty(frame, layer);
}

// 84, 89: from the cursor through the end of a line, its own or below it, and the marks of these lines are cleared.
fn erase_through(
    frame: Frame,
    place: Place,
    to: u8,
    cells: &mut [u8],
    layer: &mut [u8],
    marks: &mut [u64; 2],
)
    requires ready { Ready frame place cells.old layer.old }
    requires line_le_to { (place.line ≤ to) × (to ≤ frame.lines) }
    ensures { ActsWith (erased to) frame place place cells.old layer.old marks.old cells.new layer.new marks.new }
{
    let below = times(to - place.line, frame.columns);
    let count = below + (usize::from(frame.columns) + 1 - usize::from(place.column));
    blank_from(frame, place, count, cells, layer);
    logical::unmark(frame, place.line, to, marks);
}

// 84: "blanks through the first unmarked line at or after the cursor's".
pub fn erase_line(
    frame: Frame,
    place: Place,
    cells: &mut [u8],
    layer: &mut [u8],
    marks: &mut [u64; 2],
)
    requires ready { Ready frame place cells.old layer.old }
    ensures { ActsWith (λ (st : State). erased (end_of (marks_here st) (lines_here st) (here st).line) st) frame place place cells.old layer.old marks.old cells.new layer.new marks.new }
{
    let to = logical::end_of(frame, place.line, marks);
    erase_through(frame, place, to, cells, layer, marks);
}

// 89: "to the end of the screen".
pub fn erase_rest(
    frame: Frame,
    place: Place,
    cells: &mut [u8],
    layer: &mut [u8],
    marks: &mut [u64; 2],
)
    requires ready { Ready frame place cells.old layer.old }
    ensures { ActsWith (λ (st : State). erased (lines_here st) st) frame place place cells.old layer.old marks.old cells.new layer.new marks.new }
{
    erase_through(frame, place, frame.lines, cells, layer, marks);
}
