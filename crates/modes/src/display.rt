// 211, the key display: with it H changes, and what lies in the range of H.
ghost use Rattle.std.specs.Prelude.{◌≡◌, ℕ, ◌≤◌, List};
ghost use Rattle.model.specs.State.{state};
ghost use Rattle.model.specs.Sound.{Sound};
ghost use Rattle.model.specs.Rules.{held_place, key_line};

use model::{LAYER, Place, Settings};

// "A changed 211 empties the layer, holds both tops in their new range and lowers step to H if above"; the same value does nothing. In mode 3,
// which has no second screen, it is idle.
pub fn display(settings: Settings, on: u8, layer: &mut [u8; LAYER]) -> Settings
    requires { (Sound settings) × (settings.mode ≡ 3 → ⊥) }
    ensures { (cells dots : List ℕ) → state result cells layer.new dots ≡ key_line on (state settings cells layer.old dots) }
{
    if on == settings.display {
        return settings;
    }
    store::fill(layer, 0);
    let height = tables::height_of(settings.mode, on);
    let first = hold(settings.places[0], settings.lines1, height);
    let second = hold(settings.places[1], settings.lines2, height);
    Settings {
        display: on,
        places: [first, second],
        step: settings.step.min(height),
        ..settings
    }
}

// "Holds .. in their new range": a top is at most lines−H+1.
fn hold(place: Place, lines: u8, height: u8) -> Place
    requires { (1 ≤ height) × (height ≤ lines) }
    ensures { result ≡ held_place lines height place }
{
    let last = lines - (height - 1);
    Place {
        top: place.top.min(last),
        ..place
    }
}
