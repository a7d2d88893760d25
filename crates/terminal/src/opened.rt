// The settings at the opening.
ghost use Rattle.std.specs.Prelude.{◌≡◌};
ghost use Rattle.model.specs.State.{opened_settings};

use model::{Keys, Place, Settings};

// "Opening settings", with a rule of the last column (P9)
pub(crate) fn opened_settings(rule: u8) -> Settings
    ensures { result ≡ opened_settings rule }
{
    let home = Place {
        line: 1,
        column: 1,
        top: 1,
        late: 0,
    };
    let keys = Keys {
        leds: [0, 0, 0],
        charset: 85,
        strings: 1,
        repeat: 1,
        delay: 32,
        interval: 16,
        shift: 0,
        arrows: [0u8; 12],
    };
    let patterns = [0u8; 248];
    Settings {
        mode: 0,
        lines1: 24,
        lines2: 24,
        columns1: 80,
        columns2: 80,
        boundary: 32,
        selected: 0,
        places: [home, home],
        tracking: 1,
        step: 1,
        secret: 0,
        cursor: 1,
        display: 1,
        kind: 0,
        keys,
        patterns,
        waiting: [0u8; 12],
        held: 0,
        count: 0,
        texts: [32u8; 80],
        marks: [0u64; 2],
        rule,
    }
}
