// An item of a short message (document 02, P12) obeyed on the selected screen, as the crate `obeying` does it, and what it leaves of the shown screen: printed characters are painted as they come, and
// of any other item it is asked whether it is wide.
#![tactic(auto)]

ghost use Rattle.std.specs.Prelude.{◌≡◌, false, not, ◌||◌, List, ℕ, length};
ghost use Rattle.model.specs.Checks.{member};
ghost use Rattle.model.specs.Sequences.{code_of};
ghost use Rattle.calls.specs.Repaint.{calm?, lifts?, wide_codes};
ghost use Rattle.ground.specs.Frame.{Ready, limits_in};
ghost use Rattle.ground.specs.Acts.{Reads};
ghost use Rattle.obeying.specs.Obeying.{Moves, Offered};
ghost use Rattle.short_obeying.specs.Watches.{SeesItem, Watches, printing?};
ghost use Rattle.short_printing.specs.Seen.{run_of};

use ground::Frame;
use model::{Item, Place, Sequence};
use short_printing::{Seen, lowest, print_code, print_run};

// Whether an item that prints no character is one after which the picture may be another anywhere, or lifts.
fn stirs(frame: Frame, place: Place, item: Item) -> bool
    requires { printing? item ≡ false }
    ensures { Reads (λ st. not (calm? item) || lifts? item st) frame place result }
{
    match item {
        Item::Control(c) => (c == 12) | ((c == 10) & lowest(frame, place)),
        Item::Sequence(q) => changes(q),
        Item::Printed(_) => false,
        Item::Refused { .. } => false,
    }
}

// The sequences that blank, move or select, or change the layer, the window, secret or the key line.
fn changes(q: Sequence) -> bool
    ensures { result ≡ member (code_of q) wide_codes }
{
    matches!(
        q,
        Sequence::Clear
            | Sequence::EraseLine
            | Sequence::EraseRest
            | Sequence::SecretOn
            | Sequence::SecretOff
            | Sequence::LinesUp { .. }
            | Sequence::LinesDown { .. }
            | Sequence::WindowUp
            | Sequence::WindowDown
            | Sequence::Mode0 { .. }
            | Sequence::Mode1 { .. }
            | Sequence::Mode2 { .. }
            | Sequence::Mode3
            | Sequence::Select(_)
            | Sequence::Cover { .. }
            | Sequence::Display(_)
            | Sequence::WindowTop
            | Sequence::WindowBottom
            | Sequence::WindowCursor
    )
}

// What an item does on the selected screen, and on the shown screen. An item that does not stay moves nothing here.
pub fn obey_item(
    frame: Frame,
    place: Place,
    secret: u8,
    item: Item,
    message: &[u8],
    at: usize,
    size: usize,
    cells: &mut [u8],
    layer: &mut [u8],
    shown: &mut [u8],
    marks: &mut [u64; 2],
) -> Seen
    requires ready { Ready frame place cells.old layer.old }
    requires shown_len { length shown.old ≡ 640 }
    requires offered { Offered message.now at size item (limits_in frame) }
    ensures { (Moves message.now at size item frame place (run_of result) cells.old layer.old marks.old cells.new layer.new marks.new) × (Watches message.now at item frame place secret result cells.old layer.old marks.old shown.old shown.new) }
{
    if let Item::Printed(_) = item {
        return print_run(
            frame, place, secret, message, at, cells, layer, shown, marks,
        );
    }
    if let Item::Sequence(q) = item {
        if let Sequence::PrintCode(code) = q {
            let one = print_code(frame, place, secret, code, cells, layer, shown, marks);
            let next = one.place;
            return Seen {
                place: next,
                at: at + size,
                wide: one.wide,
            };
        }
    }
    obey(frame, place, item, message, at, size, cells, layer, marks)
}

// One that prints no character: the shown screen stays.
fn obey(
    frame: Frame,
    place: Place,
    item: Item,
    message: &[u8],
    at: usize,
    size: usize,
    cells: &mut [u8],
    layer: &mut [u8],
    marks: &mut [u64; 2],
) -> Seen
    requires ready { Ready frame place cells.old layer.old }
    requires offered { (Offered message.now at size item (limits_in frame)) × (printing? item ≡ false) }
    ensures { (Moves message.now at size item frame place (run_of result) cells.old layer.old marks.old cells.new layer.new marks.new) × ((secret : ℕ) (shown : List ℕ) → length shown ≡ 640 → SeesItem item frame place secret result.wide cells.old layer.old marks.old shown shown) }
{
    let wide = stirs(frame, place, item);
    let run = obeying::obey_item(frame, place, item, message, at, size, cells, layer, marks);
    let next = run.place;
    Seen {
        place: next,
        at: run.at,
        wide: wide | (next.top != place.top),
    }
}
