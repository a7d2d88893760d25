// The layer over the picture: emptied whole, at a place, or at places in a row. What is known to be empty is left.
ghost use Rattle.std.specs.Prelude.{◌≡◌, ◌+◌, ◌≤◌, length, replicate};
ghost use Rattle.model.specs.Bytes.{put};
ghost use Rattle.model.specs.Rules.{empty_at};
ghost use Rattle.ground.specs.Frame.{LayerOf};
ghost use Rattle.ground.specs.Spots.{empty_from};

use super::Frame;
use model::SHOWN;

// "Empties the whole layer."
pub fn empty(frame: Frame, layer: &mut [u8])
    requires { LayerOf frame layer.old }
    ensures { layer.new ≡ replicate 1280 0 }
{
    if frame.bare {
        return;
    }
    store::fill(layer, 0);
}

// "Emptying writes 0 in both": the mark and the code of a place, or nothing where it is 640 for none.
pub fn empty_at(frame: Frame, shown: usize, layer: &mut [u8])
    requires { LayerOf frame layer.old }
    ensures { layer.new ≡ empty_at shown layer.old }
{
    if frame.bare {
        return;
    }
    if shown < SHOWN {
        layer[shown] = 0;
        layer[SHOWN + shown] = 0;
    }
}

// The same of so many places in a row, as far as there are places.
pub fn empty_from(frame: Frame, shown: usize, count: usize, layer: &mut [u8])
    requires { LayerOf frame layer.old }
    ensures { layer.new ≡ empty_from shown count layer.old }
{
    if frame.bare {
        return;
    }
    if shown < SHOWN {
        let n = count.min(SHOWN - shown);
        zero(layer, shown, n);
        zero(layer, SHOWN + shown, n);
    }
}

// So many bytes from an index on.
pub(crate) fn zero(layer: &mut [u8], from: usize, count: usize)
    requires { from + count ≤ length layer.old }
    ensures { layer.new ≡ put from (replicate count 0) layer.old }
{
    let to = from + count;
    store::fill(&mut layer[from..to], 0);
}
