// Where the picture takes its cells from, the same for each of its rows: a left pane, a gap and a right pane. Module rows paints them.
#![tactic(auto)]

pub mod rows;

ghost use Rattle.std.specs.Prelude.{◌≡◌, ◌+◌, ◌*◌, ◌≤◌, ◌<◌};
ghost use Rattle.model.specs.Screens.{place_of, screens};
ghost use Rattle.model.specs.Sound.{Sound};
ghost use Rattle.views.specs.Panes.{Line, Window, ViewOf};

use model::{Place, Settings};

// In each row `width` cells, in the first from cell `at` on, in the next from where the one before ends.
#[derive(Clone, Copy)]
pub struct Pane {
    pub at: usize,
    pub width: usize,
}

// In `rows` rows, those of text; `gap` places of `code` stand between the panes. That these fit the shown screen and the cells (`Framed`) is no ghost
// field: it would be said again of seven numbers, since the definition has a View, and a struct that has one takes no `..self`.
#[derive(Clone, Copy)]
pub struct View {
    pub rows: usize,
    pub left: Pane,
    pub gap: usize,
    pub code: u8,
    pub right: Pane,
}

impl Pane {
    // The first cell of a pane in row `row`, from 0.
    pub fn start(self, row: usize) -> usize
        requires { self.at + row * self.width + self.width ≤ 3840 }
        ensures { Line self row result }
    {
        self.at + row * self.width
    }
}

// A screen's place, by its number: picked from a copy of the two, since an index into the settings themselves that is not a literal would
// keep a compiler from taking them apart, and so have all of them copied.
pub fn place_of(settings: Settings, screen: u8) -> Place
    requires { screen < 2 }
    ensures { result ≡ place_of settings screen }
{
    let places = settings.places;
    places[screen as usize]
}

// The window of a screen, by its number and its top. Screen 2's cells stand behind those of screen 1. The casts are no `usize::from`: tried, each is a
// number of its own then, and the bounds of the products are not found.
fn window(settings: Settings, screen: u8, top: u8) -> Pane
    requires { (Sound settings) × ((screen < screens settings) × (top ≡ (place_of settings screen).top)) }
    ensures { Window settings screen result }
{
    let above = top as usize - 1;
    let columns1 = settings.columns1 as usize;
    if screen == 0 {
        return Pane {
            at: above * columns1,
            width: columns1,
        };
    }
    let columns2 = settings.columns2 as usize;
    let base = settings.lines1 as usize * columns1;
    Pane {
        at: base + above * columns2,
        width: columns2,
    }
}

// Modes 0 and 3: the selected screen. Mode 1: its left half, "40 and 41 blank", and its right half, which starts as many lines after the left as
// there are rows. Mode 2: screen 1, the boundary, screen 2. `top` is the selected screen's.
pub fn view_of(settings: Settings, top: u8) -> View
    requires { (Sound settings) × (top ≡ (place_of settings settings.selected).top) }
    ensures { ViewOf settings result }
{
    let mode = settings.mode;
    let rows = tables::text_rows(settings.display) as usize;
    if mode == 2 {
        return View {
            rows,
            left: window(settings, 0, place_of(settings, 0).top),
            gap: 1,
            code: settings.boundary,
            right: window(settings, 1, place_of(settings, 1).top),
        };
    }
    let left = window(settings, settings.selected, top);
    let width = left.width;
    if mode != 1 {
        return View {
            rows,
            left,
            gap: 0,
            code: 32,
            right: Pane { at: 0, width: 0 },
        };
    }
    let at = left.at + rows * width;
    View {
        rows,
        left,
        gap: 2,
        code: 32,
        right: Pane { at, width },
    }
}
