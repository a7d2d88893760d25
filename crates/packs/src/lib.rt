// Document 02, P6: a pack of messages in one call, by value. The whole pack is judged before a byte of it is obeyed; then each body is served as a message.
#![tactic(auto)]

mod checking;
mod sending;

ghost use Rattle.calls.specs.Calls.{PackPromised};

use checking::check_pack;
use model::{PackOutcome, Settings};
use numbers::refused;
use sending::send_each;

// "One call on a pack up to 60,000 bytes must equal its messages sent one by one": each in the printer room that those before left over; or refused by 1, 19,
// 20, 21, 2, 3 or 16, and nothing altered.
pub fn pack(
    settings: Settings,
    pack: &[u8],
    cells: &mut [u8],
    layer: &mut [u8],
    shown: &mut [u8],
    dots: &mut [u8],
    printer: &mut [u8],
) -> PackOutcome
    ensures { PackPromised settings pack.now cells.old layer.old dots.old shown.old printer.old result cells.new layer.new dots.new shown.new printer.new }
{
    if let Err(refusal) = check_pack(settings, pack, cells, layer, shown, dots) {
        let answer = refused(refusal);
        return PackOutcome {
            settings,
            answer,
            record: 0,
        };
    }
    send_each(settings, pack, cells, layer, shown, dots, printer)
}
