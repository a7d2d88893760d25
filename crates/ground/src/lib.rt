// What the cursor and the window of the selected screen stand on: its frame, its lines of cells, the marks of its lines, the layer, and places made from others.
#![tactic(auto)]

pub mod lines;
pub mod logical;
pub mod marks;
pub mod places;

ghost use Rattle.std.specs.Prelude.{◌≡◌, ◌*◌, ◌<◌};

// Of the selected screen: its first cell, which screen it is (0 or 1), its lines and columns; the rows of the shown screen that show text and the window's height H; by
// how many columns the picture shows it further right (mode 2, screen 2); the step of the window, whether it tracks the cursor, the rule of the last column, and
// the mode, which no function here asks.
// `bare` is no setting: it says that the layer is known to be empty, so that it need not be emptied again.
// Place, cells, layer and marks go beside it. One struct of all was tried, and its proof did not close: two of its references cannot be lent to one call, as `apply`
// wants the cells and the layer, and each function would have to promise that they are the same ones still (px8_message_l2 took 0.87 to 1.11 of its time).
#[derive(Clone, Copy)]
pub struct Frame {
    pub base: usize,
    pub screen: usize,
    pub lines: u8,
    pub columns: u8,
    pub rows: u8,
    pub height: u8,
    pub shift: u8,
    pub step: u8,
    pub tracking: u8,
    pub rule: u8,
    pub mode: u8,
    pub bare: bool,
}

// Which way lines move.
#[derive(Clone, Copy)]
pub enum Way {
    Up,
    Down,
}

// As many lines of so many columns as cells.
pub fn times(x: u8, y: u8) -> usize
    ensures { (result ≡ x * y) × (result < 65536) }
{
    usize::from(x) * usize::from(y)
}
