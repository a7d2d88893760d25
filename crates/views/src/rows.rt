// The rows of the picture without secret and layer: a row, and all of them.
ghost use Rattle.std.specs.Prelude.{◌≡◌, ◌*◌, ◌<◌};
ghost use Rattle.views.specs.Painted.{painted};
ghost use Rattle.views.specs.Panes.{Framed, seen};

use crate::{Pane, View};
use model::{CELLS, SHOWN};

// The rows of the shown screen, a row's places, and those before row 8.
pub const ROWS: usize = 8;

pub const ROW: usize = 80;

pub const ROW_8: usize = 560;

impl View {
    // Row `row`, from 0, of the picture without secret and layer: the left pane, the gap, the right pane.
    pub fn paint_row(self, cells: &[u8; CELLS], shown: &mut [u8; SHOWN], row: usize)
        requires framed { (Framed self) × (row < self.rows) }
        ensures { shown.new ≡ painted (row * 80) 80 (seen self cells.now) shown.old }
    {
        let left = self.left;
        let right = self.right;
        let from = row * ROW;
        let between = from + left.width;
        let to = between + self.gap;
        store::copy_in(shown, from, cells, left.start(row), left.width);
        store::fill(&mut shown[between..to], self.code);
        store::copy_in(shown, to, cells, right.start(row), right.width);
    }

    // The panes. One as wide as the screen is one piece of the cells. Else there are 39, 2 and 39 places, or a gap of 1: these numbers are
    // handed on as such, so that a compiler sees them.
    pub fn paint(self, cells: &[u8; CELLS], shown: &mut [u8; SHOWN])
        requires framed { Framed self }
        ensures { shown.new ≡ painted 0 (self.rows * 80) (seen self cells.now) shown.old }
    {
        let left = self.left;
        let right = self.right;
        if left.width == ROW {
            store::copy_many(shown, 0, cells, left.at, self.rows * ROW);
            return;
        }
        if self.gap == 2 {
            self.paint_rows(39, 2, 39, cells, shown);
            return;
        }
        self.paint_rows(left.width, 1, right.width, cells, shown);
    }

    // The panes row by row, `one`, `gap` and `two` places of each.
    fn paint_rows(
        self,
        one: usize,
        gap: usize,
        two: usize,
        cells: &[u8; CELLS],
        shown: &mut [u8; SHOWN],
    )
        requires framed { Framed self }
        requires one_value { (one ≡ self.left.width) × ((gap ≡ self.gap) × (two ≡ self.right.width)) }
        ensures { shown.new ≡ painted 0 (self.rows * 80) (seen self cells.now) shown.old }
    {
        let view = View {
            left: Pane {
                width: one,
                ..self.left
            },
            gap,
            right: Pane {
                width: two,
                ..self.right
            },
            ..self
        };
        for row in 0..view.rows {
            view.paint_row(cells, shown, row);
        }
    }
}
