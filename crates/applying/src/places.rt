// The selected screen's place, picked out of the settings and put back by its number: into a copy of the two places, as it is picked (`views::place_of`).
ghost use Rattle.std.specs.Prelude.{◌≡◌, ◌<◌, set};
ghost use Rattle.model.specs.Screens.{place_of};

use model::{Place, Settings};

// The selected screen's place.
pub fn selected_place(settings: Settings) -> Place
    requires { settings.selected < 2 }
    ensures { result ≡ place_of settings settings.selected }
{
    views::place_of(settings, settings.selected)
}

// Both places, the selected screen's anew.
pub fn placed(settings: Settings, place: Place) -> [Place; 2]
    requires { settings.selected < 2 }
    ensures { result ≡ set settings.places settings.selected place }
{
    let mut places = settings.places;
    places[settings.selected as usize] = place;
    places
}
