// An item as the message loop meets it: read by the selected screen's limits, obeyed on that screen by its place and the marks alone; and what is known of
// the layer and of the dots after it. What an item does to the settings is the crate `applying`'s.
#![tactic(auto)]

ghost use Rattle.std.specs.Prelude.{◌≡◌, ◌<◌, ◌≤◌, length, eqb};
ghost use Rattle.model.specs.OnScreen.{stays_on_screen?};
ghost use Rattle.model.specs.Sequences.{code_of};
ghost use Rattle.reader.specs.Reading.{ReadAt};
ghost use Rattle.ground.specs.Frame.{Ready, limits_in};
ghost use Rattle.obeying.specs.Obeying.{Offered, Moves, bare_then, clears?, dots_then};

use ground::Frame;
use model::{Item, Limits, Place, Sequence};
use reader::Reading;
use runs::Run;

// The item at an offset, judged by the selected screen's limits.
pub fn read_at(frame: Frame, room: usize, message: &[u8], at: usize) -> Reading
    requires at_in_bounds { at < length message.now }
    requires message_len_bound { length message.now ≤ 4096 }
    ensures { ReadAt message.now at (limits_in frame) room result }
{
    let limits = Limits {
        mode: frame.mode,
        lines: frame.lines,
        columns: frame.columns,
        height: frame.height,
    };
    reader::read_item(limits, room, message, at)
}

// Whether an item acts on the selected screen alone.
pub fn stays(item: Item) -> bool
    ensures { result ≡ stays_on_screen? item }
{
    match item {
        Item::Printed(_) => true,
        Item::Control(_) => true,
        Item::Sequence(q) => screen::on_screen(q),
        Item::Refused { .. } => false,
    }
}

// What an item at an offset, with so many bytes, does on the selected screen: where the cursor and the window are then, and where the next item
// begins. A printed byte begins a run, and all of it is printed at once. An item that does not stay leaves all as it is.
pub fn obey_item(
    frame: Frame,
    place: Place,
    item: Item,
    message: &[u8],
    at: usize,
    size: usize,
    cells: &mut [u8],
    layer: &mut [u8],
    marks: &mut [u64; 2],
) -> Run
    requires ready { Ready frame place cells.old layer.old }
    requires offered { Offered message.now at size item (limits_in frame) }
    ensures { Moves message.now at size item frame place result cells.old layer.old marks.old cells.new layer.new marks.new }
{
    let next = at + size;
    match item {
        Item::Printed(_) => runs::print_run(frame, place, message, at, cells, layer, marks),
        Item::Control(c) => Run {
            place: screen::control(frame, place, c, cells, layer, marks),
            at: next,
        },
        Item::Sequence(q) => Run {
            place: screen::obey_sequence(frame, place, q, cells, layer, marks),
            at: next,
        },
        Item::Refused { .. } => Run { place, at: next },
    }
}

// "42 in mode 3 .. clear[s] the dots", and so does code 12. Any other item leaves them here.
pub fn wipe_after(mode: u8, item: Item, dots: &mut [u8])
    requires { length dots.old ≡ 3840 }
    ensures { dots.new ≡ dots_then mode item dots.old }
{
    if clears(item) & (mode == 3) {
        dots::wipe(dots);
    }
}

// Whether an item is 42 or code 12.
fn clears(item: Item) -> bool
    ensures { result ≡ clears? item }
{
    match item {
        Item::Control(c) => c == 12,
        Item::Sequence(q) => is_clear(q),
        _ => false,
    }
}

// Whether a sequence is 42.
fn is_clear(q: Sequence) -> bool
    ensures { result ≡ eqb (code_of q) 42 }
{
    matches!(q, Sequence::Clear)
}

// What is known of the layer after an item: it is empty (true), or nothing is known of it.
pub fn bare_after(mode: u8, item: Item, bare: bool) -> bool
    ensures { result ≡ bare_then mode item bare }
{
    match item {
        Item::Control(c) => (c == 12) | bare,
        Item::Sequence(q) => bare_then(mode, q, bare),
        _ => bare,
    }
}

// The same of a sequence: 210 marks the layer, these others "empty the whole layer", but for a 209 in mode 3, where it is idle. So does a 211 that
// changes the key display, of which nothing is known here.
fn bare_then(mode: u8, q: Sequence, bare: bool) -> bool
    ensures { result ≡ bare_then mode (Item.Sequence q) bare }
{
    match q {
        Sequence::Cover { .. } => false,
        Sequence::Clear
        | Sequence::EraseLine
        | Sequence::EraseRest
        | Sequence::LinesUp { .. }
        | Sequence::LinesDown { .. }
        | Sequence::Mode0 { .. }
        | Sequence::Mode1 { .. }
        | Sequence::Mode2 { .. }
        | Sequence::Mode3 => true,
        Sequence::Select(_) => (mode != 3) | bare,
        _ => bare,
    }
}
