// 224: the patterns, 31 of 8 rows, one behind the other.
ghost use Rattle.std.specs.Prelude.{◌≡◌, ◌-◌, ◌*◌, take, drop};
ghost use Rattle.model.specs.Bytes.{put};
ghost use Rattle.model.specs.State.{with_stored};
ghost use Rattle.settings.specs.Given.{Storing};

use model::Settings;

// "code 224 to 254, its eight rows stored". They stand in the message from `at` on.
pub fn keep(settings: Settings, code: u8, message: &[u8], at: u32) -> Settings
    requires { Storing code at message.now settings.patterns }
    ensures { result ≡ with_stored settings settings.kind settings.keys (put ((code - 224) * 8) (take 8 (drop at message.now)) settings.patterns) }
{
    let from = (usize::from(code) - 224) * 8;
    let mut rows = settings.patterns;
    store::copy_in(&mut rows, from, message, at as usize, 8);
    Settings {
        patterns: rows,
        ..settings
    }
}
