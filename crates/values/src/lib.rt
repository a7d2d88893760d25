// Document 01, "What the sequences do": those that only set something, in the settings alone: cursor, window and secret mode, the keyboard.
#![tactic(auto)]

ghost use Rattle.std.specs.Prelude.{◌≡◌, ◌+◌, ◌≤◌, false, true};
ghost use Rattle.model.specs.Bytes.{put};
ghost use Rattle.model.specs.Sequences.{code_of, idle?};
ghost use Rattle.model.specs.Sound.{Sound};
ghost use Rattle.model.specs.State.{repeat_with};
ghost use Rattle.model.specs.Judging.{legal?, limits_of};
ghost use Rattle.values.specs.Setting.{Setting};

use model::{Keys, Sequence, Settings};

// The sequences that only set something. The last arm is what changes nothing here: the sequences of crate screen, 80 (the copy is made
// from the picture or the dots) and 246, and those that crate settings does: 198, 199, 208 to 211 and 224. One copy is written to: a struct update
// in each arm took up to 1.07 of this (mixed-200).
pub fn set(settings: Settings, q: Sequence) -> Settings
    requires sound { Sound settings }
    requires settings_value { (legal? q (limits_of settings) ≡ true) × (idle? settings.mode (code_of q) ≡ false) }
    ensures { Setting settings q result }
{
    let mut s = settings;
    match q {
        Sequence::CursorOff => s.cursor = 0,
        Sequence::CursorOn => s.cursor = 1,
        Sequence::Charset(letter) => s.keys.charset = letter,
        Sequence::SecretOn => s.secret = 1,
        Sequence::SecretOff => s.secret = 0,
        Sequence::Step(lines) => s.step = lines,
        Sequence::Tracking(off) => s.tracking = 1 - off,
        Sequence::InsOn => s.keys.leds[0] = 1,
        Sequence::InsOff => s.keys.leds[0] = 0,
        Sequence::CapsOn => s.keys.leds[1] = 1,
        Sequence::CapsOff => s.keys.leds[1] = 0,
        Sequence::NumOn => s.keys.leds[2] = 1,
        Sequence::NumOff => s.keys.leds[2] = 0,
        Sequence::StringsOff => s.keys.strings = 0,
        Sequence::StringsOn => s.keys.strings = 1,
        Sequence::CursorKind(kind) => s.kind = kind,
        Sequence::Repeat(on) => s.keys.repeat = on,
        Sequence::RepeatDelay(n) => s.keys.delay = n,
        Sequence::RepeatInterval(n) => s.keys.interval = n,
        Sequence::Arrows1 { c1, c2, c3, c4 } => s.keys = arrows(s.keys, 0, [c1, c2, c3, c4]),
        Sequence::Arrows2 { c1, c2, c3, c4 } => s.keys = arrows(s.keys, 4, [c1, c2, c3, c4]),
        Sequence::Arrows3 { c1, c2, c3, c4 } => s.keys = arrows(s.keys, 8, [c1, c2, c3, c4]),
        Sequence::Shift(n) => s.keys.shift = n,
        _ => {}
    }
    s
}

// The keys with other codes for four arrows: 243 to 245, "four codes each", from 0, 4 and 8 on.
fn arrows(keys: Keys, from: usize, codes: [u8; 4]) -> Keys
    requires { from + 4 ≤ 12 }
    ensures { result ≡ repeat_with keys keys.repeat keys.delay keys.interval keys.shift (put from codes keys.arrows) }
{
    let mut arrows = keys.arrows;
    store::copy_in(&mut arrows, from, &codes, 0, 4);
    Keys { arrows, ..keys }
}
