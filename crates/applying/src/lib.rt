// An item that does not stay on the selected screen: what it changes of the settings and of what they govern, and the copy that an 80 prints.
#![tactic(auto)]

pub mod places;

ghost use Rattle.std.specs.Prelude.{◌≡◌, ◌+◌, ◌≤◌, length};
ghost use Rattle.model.specs.Bytes.{put};
ghost use Rattle.model.specs.State.{state};
ghost use Rattle.model.specs.Sound.{Sound};
ghost use Rattle.model.specs.Items.{copy_of, printer_bytes};
ghost use Rattle.applying.specs.Applying.{Applying, Applied};

use counting::is_copy;
use model::{CELLS, DOTS, Item, LAYER, Sequence, Settings};

// "A refused sequence changes nothing but the counts and the first refusal": the accepted case is taken apart, else, and where it is idle, the settings
// are those that were given.
pub fn apply(
    settings: Settings,
    item: Item,
    message: &[u8],
    cells: &mut [u8; CELLS],
    layer: &mut [u8; LAYER],
    dots: &mut [u8; DOTS],
    printer: &mut [u8],
    from: usize,
) -> Settings
    requires { Applying settings item message.now cells.old layer.old dots.old printer.old from }
    ensures { Applied settings item message.now from result cells.old layer.old dots.old printer.old cells.new layer.new dots.new printer.new }
{
    let Item::Sequence(q) = item else {
        return settings;
    };
    if tables::idle(settings.mode, q) {
        return settings;
    }
    print_copy(settings, q, cells, layer, dots, printer, from);
    if settings::is_pattern(q) {
        return settings::store_pattern(settings, q, message);
    }
    settings::obey(settings, q, cells, layer, dots)
}

// 80: "appends the picture at that moment", in mode 3 the dots; any other sequence prints nothing.
fn print_copy(
    settings: Settings,
    q: Sequence,
    cells: &[u8; CELLS],
    layer: &[u8; LAYER],
    dots: &[u8; DOTS],
    printer: &mut [u8],
    from: usize,
)
    requires sound { Sound settings }
    requires q_in_bounds { from + printer_bytes settings.mode (Item.Sequence q) ≤ length printer.old }
    ensures { printer.new ≡ put from (copy_of (Item.Sequence q) (state settings cells.now layer.now dots.now)) printer.old }
{
    if is_copy(q) {
        copies::copy(settings, cells, layer, dots, printer, from);
    }
}
