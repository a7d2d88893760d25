// What gives the screens their shape: 208, and in module display 211.
// 208: "An accepted 208 blanks all cells, empties the layer, puts cursors and tops at 1, selects screen 1, sets step 1 and
// tracking on. Other settings stay, save the boundary in mode 2." P5: it clears all marks; P9: and both
// waiting flags, and keeps the rule; P11: and the dots.
#![tactic(auto)]

pub mod display;

ghost use Rattle.std.specs.Prelude.{◌≡◌, ◌-◌, ◌≤◌};
ghost use Rattle.model.specs.State.{state, with_mode, with_mode3};
ghost use Rattle.model.specs.Rules.{mode_set};

use model::{CELLS, DOTS, LAYER, Place, Settings};

// The table of modes: the mode, lines and columns of screens 1 and 2; and the boundary.
#[derive(Clone, Copy)]
struct Shape {
    mode: u8,
    lines1: u8,
    lines2: u8,
    columns1: u8,
    columns2: u8,
    boundary: u8,
}

// "0, n1, n2": n1 and n2 lines, 80 columns each.
pub fn mode0(
    settings: Settings,
    lines1: u8,
    lines2: u8,
    cells: &mut [u8; CELLS],
    layer: &mut [u8; LAYER],
    dots: &mut [u8; DOTS],
) -> Settings
    ensures { state result cells.new layer.new dots.new ≡ mode_set (with_mode settings 0 lines1 lines2 80 80 settings.boundary) }
{
    let shape = Shape {
        mode: 0,
        lines1,
        lines2,
        columns1: 80,
        columns2: 80,
        boundary: settings.boundary,
    };
    set(settings, shape, cells, layer, dots)
}

// "1, n1": both n1 lines, 39 columns each.
pub fn mode1(
    settings: Settings,
    lines: u8,
    cells: &mut [u8; CELLS],
    layer: &mut [u8; LAYER],
    dots: &mut [u8; DOTS],
) -> Settings
    ensures { state result cells.new layer.new dots.new ≡ mode_set (with_mode settings 1 lines lines 39 39 settings.boundary) }
{
    let shape = Shape {
        mode: 1,
        lines1: lines,
        lines2: lines,
        columns1: 39,
        columns2: 39,
        boundary: settings.boundary,
    };
    set(settings, shape, cells, layer, dots)
}

// "2, n1, m, p": both n1 lines, "m (1 to 78) and 79−m" columns, p the boundary.
pub fn mode2(
    settings: Settings,
    lines: u8,
    columns: u8,
    boundary: u8,
    cells: &mut [u8; CELLS],
    layer: &mut [u8; LAYER],
    dots: &mut [u8; DOTS],
) -> Settings
    requires { columns ≤ 78 }
    ensures { state result cells.new layer.new dots.new ≡ mode_set (with_mode settings 2 lines lines columns (79 - columns) boundary) }
{
    let shape = Shape {
        mode: 2,
        lines1: lines,
        lines2: lines,
        columns1: columns,
        columns2: 79 - columns,
        boundary,
    };
    set(settings, shape, cells, layer, dots)
}

// "3": 8 lines of 80, and no second screen; "208,3 sets type 3 and key display 1".
pub fn mode3(
    settings: Settings,
    cells: &mut [u8; CELLS],
    layer: &mut [u8; LAYER],
    dots: &mut [u8; DOTS],
) -> Settings
    ensures { state result cells.new layer.new dots.new ≡ mode_set (with_mode3 settings) }
{
    let shape = Shape {
        mode: 3,
        lines1: 8,
        lines2: 0,
        columns1: 80,
        columns2: 0,
        boundary: settings.boundary,
    };
    let s = set(settings, shape, cells, layer, dots);
    Settings {
        display: 1,
        kind: 3,
        ..s
    }
}

// A mode of any shape: what all four have in common.
fn set(
    settings: Settings,
    shape: Shape,
    cells: &mut [u8; CELLS],
    layer: &mut [u8; LAYER],
    dots: &mut [u8; DOTS],
) -> Settings
    ensures { state result cells.new layer.new dots.new ≡ mode_set (with_mode settings shape.mode shape.lines1 shape.lines2 shape.columns1 shape.columns2 shape.boundary) }
{
    store::fill(cells, 32);
    store::fill(layer, 0);
    dots::wipe(dots);
    let home = Place {
        line: 1,
        column: 1,
        top: 1,
        late: 0,
    };
    Settings {
        mode: shape.mode,
        lines1: shape.lines1,
        lines2: shape.lines2,
        columns1: shape.columns1,
        columns2: shape.columns2,
        boundary: shape.boundary,
        selected: 0,
        places: [home, home],
        tracking: 1,
        step: 1,
        marks: [0; 2],
        ..settings
    }
}
