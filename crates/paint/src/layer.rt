// The layer over what is painted.
ghost use Rattle.std.specs.Prelude.{◌≡◌, ◌-◌, ◌≤◌, get_or};
ghost use Rattle.paint.specs.Shown.{laid, covered_by};
ghost use Rattle.views.specs.Painted.{painted};

use model::{LAYER, SHOWN};

// "the layer's code if marked; else" what stands there, at all places from `first` on.
pub(crate) fn lay(layer: &[u8; LAYER], first: usize, shown: &mut [u8; SHOWN])
    requires { first ≤ 640 }
    ensures { shown.new ≡ painted first (640 - first) (laid layer.now (λ p. get_or shown.old p 0)) shown.old }
{
    for place in first..SHOWN {
        shown[place] = over(layer[place], layer[SHOWN + place], shown[place]);
    }
}

fn over(mark: u8, code: u8, under: u8) -> u8
    ensures { result ≡ covered_by mark code under }
{
    if mark == 0 { under } else { code }
}
