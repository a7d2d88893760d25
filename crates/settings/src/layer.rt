// What changes the layer beside 208 and 211. Its first half marks the places of the shown screen, the second has their codes.
ghost use Rattle.std.specs.Prelude.{◌≡◌, ◌+◌, ◌-◌, ◌*◌, replicate};
ghost use Rattle.model.specs.State.{with_flags};
ghost use Rattle.model.specs.Rules.{cover};
ghost use Rattle.settings.specs.Given.{Marking};

use model::{LAYER, SHOWN, Settings};

// 209: "select by 0 or 1"; it "empties the whole layer".
pub fn select(settings: Settings, screen: u8, layer: &mut [u8; LAYER]) -> Settings
    ensures { (result ≡ with_flags settings screen settings.tracking settings.step settings.secret settings.cursor) × (layer.new ≡ replicate 1280 0) }
{
    store::fill(layer, 0);
    Settings {
        selected: screen,
        ..settings
    }
}

// 210: "row 1 to 8, column 1 to 80; marks the layer with p". The settings stay.
pub fn cover(settings: Settings, row: u8, column: u8, code: u8, layer: &mut [u8; LAYER]) -> Settings
    requires { Marking row column }
    ensures { (result ≡ settings) × (layer.new ≡ cover ((row - 1) * 80 + (column - 1)) code layer.old) }
{
    let place = (usize::from(row) - 1) * 80 + (usize::from(column) - 1);
    layer[place] = 1;
    layer[SHOWN + place] = code;
    settings
}
