// The shown screen: the picture of what stands. Its rows are painted by crate views; here secret mode, the key texts and the layer come to them.
#![tactic(auto)]

mod layer;

ghost use Rattle.std.specs.Prelude.{◌≡◌, ℕ, ◌*◌, List, get_or, replicate, eqb, cond, true};
ghost use Rattle.model.specs.Bytes.{put};
ghost use Rattle.model.specs.Sound.{Sound};
ghost use Rattle.model.specs.Screens.{place_of};
ghost use Rattle.model.specs.State.{state};
ghost use Rattle.model.specs.Picture.{painting, picture};
ghost use Rattle.paint.specs.Shown.{below, laid};
ghost use Rattle.views.specs.Painted.{painted};
ghost use Rattle.views.specs.Panes.{Framed, seen};

use model::{CELLS, LAYER, SHOWN, Settings};
use views::View;
use views::rows::{ROW, ROW_8};

// "It always ends by painting all 640 places": the panes, under display 0 the key line behind them, then the layer over all. What paints is handed
// the view and single numbers, so that no settings are copied for it. The picture shows no dots: it is the same whatever they are. `top` is the selected
// screen's, handed over by who has it at hand: what was just written into the settings is slow to read back, as it would be in a struct of both.
pub fn paint(
    settings: Settings,
    top: u8,
    bare: bool,
    cells: &[u8; CELLS],
    layer: &[u8; LAYER],
    shown: &mut [u8; SHOWN],
)
    requires visible { (Sound settings) × (top ≡ (place_of settings settings.selected).top) }
    requires layer_value { bare ≡ true → layer.now ≡ replicate 1280 0 }
    ensures { (dots : List ℕ) → shown.new ≡ painting (state settings cells.now layer.now dots) }
{
    let panes = views::view_of(settings, top);
    paint_under(settings.secret, panes, cells, shown);
    paint_keys(settings, shown);
    lay_over(settings.secret, bare, layer, shown);
}

// Document 02, P12: "Row 8 it always paints whole", and here nothing else.
pub fn paint_row_8(
    settings: Settings,
    top: u8,
    cells: &[u8; CELLS],
    layer: &[u8; LAYER],
    shown: &mut [u8; SHOWN],
)
    requires visible { (Sound settings) × (top ≡ (place_of settings settings.selected).top) }
    ensures { (dots : List ℕ) → shown.new ≡ painted 560 80 (picture (state settings cells.now layer.now dots)) shown.old }
{
    let hidden = settings.secret;
    if hidden == 1 {
        store::fill(&mut shown[ROW_8..], 32);
        return;
    }
    paint_last(settings, top, cells, shown);
    layer::lay(layer, ROW_8, shown);
}

// Row 8 without secret and layer: the key texts under display 0, else the last row of the panes.
fn paint_last(settings: Settings, top: u8, cells: &[u8; CELLS], shown: &mut [u8; SHOWN])
    requires sound { (Sound settings) × (top ≡ (place_of settings settings.selected).top) }
    ensures { (layer dots : List ℕ) → shown.new ≡ painted 560 80 (below (state settings cells.now layer dots)) shown.old }
{
    if settings.display == 0 {
        let texts = settings.texts;
        store::copy_in(shown, ROW_8, &texts, 0, ROW);
        return;
    }
    let panes = views::view_of(settings, top);
    let left = panes.left;
    if left.width == ROW {
        store::copy_in(shown, ROW_8, cells, left.start(7), ROW);
        return;
    }
    panes.paint_row(cells, shown, 7);
}

// "With ESC 211,0 row 8 shows ten key texts of 8 codes", which secret mode leaves out. Only then are the texts touched.
pub fn paint_keys(settings: Settings, shown: &mut [u8; SHOWN])
    ensures { shown.new ≡ cond (eqb settings.secret 1) shown.old (cond (eqb settings.display 0) (put 560 settings.texts shown.old) shown.old) }
{
    if settings.secret == 1 {
        return;
    }
    if settings.display != 0 {
        return;
    }
    let texts = settings.texts;
    store::copy_in(shown, ROW_8, &texts, 0, ROW);
}

// The layer over what is painted, which secret mode leaves out. A layer that is known to be empty is not laid.
pub fn lay_over(secret: u8, bare: bool, layer: &[u8; LAYER], shown: &mut [u8; SHOWN])
    requires layer_value { bare ≡ true → layer.now ≡ replicate 1280 0 }
    ensures { shown.new ≡ cond (eqb secret 1) shown.old (painted 0 640 (laid layer.now (λ p. get_or shown.old p 0)) shown.old) }
{
    if secret == 1 {
        return;
    }
    if bare {
        return;
    }
    layer::lay(layer, 0, shown);
}

// What the layer is laid over: the panes, blank in secret mode.
pub fn paint_under(secret: u8, panes: View, cells: &[u8; CELLS], shown: &mut [u8; SHOWN])
    requires framed { Framed panes }
    ensures { shown.new ≡ cond (eqb secret 1) (replicate 640 32) (painted 0 (panes.rows * 80) (seen panes cells.now) shown.old) }
{
    if secret != 1 {
        panes.paint(cells, shown);
        return;
    }
    store::fill(shown, 32);
}
