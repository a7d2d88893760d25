// Document 01, "What the sequences do": those that change the settings. 208 changes the cells, the layer and the dots too, 209 to 211
// the layer, 198 and 199 (document 02, P11) the dots. 208 and 211 are done by crate modes, 198 and 199 by crate drawing, those that only set something by crate
// values, 209, 210 and 224 here. The others act inside the selected screen, on its cells, cursor and window, and are crate screen's.
// 224 alone changes the patterns, and has its own function: a caller need not move their 248 bytes at the others. None changes the key texts.
#![tactic(auto)]

mod layer;
mod patterns;

ghost use Rattle.std.specs.Prelude.{◌≡◌, eqb};
ghost use Rattle.model.specs.Sequences.{code_of};
ghost use Rattle.settings.specs.Obey.{Obeying, Obeyed, PatternAsked, PatternStored};

use model::{CELLS, DOTS, LAYER, Sequence, Settings};

// Does what an accepted sequence says that is not idle in the mode, unless it is 224, and leaves patterns and key texts. 208 changes all stores, 209 to
// 211 the layer, 198 and 199 the dots.
pub fn obey(
    settings: Settings,
    q: Sequence,
    cells: &mut [u8; CELLS],
    layer: &mut [u8; LAYER],
    dots: &mut [u8; DOTS],
) -> Settings
    requires { Obeying settings q }
    ensures { Obeyed settings q result cells.old layer.old dots.old cells.new layer.new dots.new }
{
    match q {
        Sequence::Mode0 { lines1, lines2 } => {
            modes::mode0(settings, lines1, lines2, cells, layer, dots)
        }
        Sequence::Mode1 { lines } => modes::mode1(settings, lines, cells, layer, dots),
        Sequence::Mode2 {
            lines,
            columns,
            boundary,
        } => modes::mode2(settings, lines, columns, boundary, cells, layer, dots),
        Sequence::Mode3 => modes::mode3(settings, cells, layer, dots),
        Sequence::DrawLine { .. } => drawing::stroke(settings, q, dots),
        Sequence::DrawDot { p1, p2, p3, p4 } => drawing::dot(settings, p1, p2, p3, p4, dots),
        Sequence::Select(n) => layer::select(settings, n, layer),
        Sequence::Cover { row, column, code } => layer::cover(settings, row, column, code, layer),
        Sequence::Display(n) => modes::display::display(settings, n, layer),
        _ => values::set(settings, q),
    }
}

// Whether a sequence is 224.
pub fn is_pattern(q: Sequence) -> bool
    ensures { result ≡ eqb (code_of q) 224 }
{
    matches!(q, Sequence::Pattern { .. })
}

// Does what an accepted 224 says. Any other sequence leaves the settings.
pub fn store_pattern(settings: Settings, q: Sequence, message: &[u8]) -> Settings
    requires { PatternAsked settings q message.now }
    ensures { PatternStored settings q message.now result }
{
    let Sequence::Pattern { code, at } = q else {
        return settings;
    };
    patterns::keep(settings, code, message, at)
}
