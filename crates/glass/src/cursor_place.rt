// Where the cursor stands on the glass.
ghost use Rattle.std.specs.Prelude.{◌≡◌, ◌<◌, ◌≤◌, MatchOption};
ghost use Rattle.glass.specs.Cursor.{cursor_at};
ghost use Rattle.model.specs.Screens.{place_of};

use model::{Place, SHOWN, Settings};

// The place that shows the cursor of the selected screen, or none: it is off, or its line is not in the window.
pub(crate) fn place(settings: Settings) -> Option<usize>
    ensures { MatchOption result (640 ≤ cursor_at settings) (λ p. (p ≡ cursor_at settings) × (p < 640)) }
{
    if !soundness::sound(settings) {
        return None;
    }
    if settings.cursor == 0 {
        return None;
    }
    let at = cursor::shown(screen::frame_of(settings, false), here(settings));
    if at < SHOWN { Some(at) } else { None }
}

// The selected screen's place.
fn here(settings: Settings) -> Place
    requires { settings.selected < 2 }
    ensures { result ≡ place_of settings settings.selected }
{
    settings.places[settings.selected as usize]
}
