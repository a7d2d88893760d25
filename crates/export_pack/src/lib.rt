// A pack of messages for a board's firmware, in C or Rust: settings and answer lent, slices as pointer and length; c/px8.h says it for C. It stands apart from the
// crates that export the other calls: an archive object has one copy of the message loop, and here that loop is compiled for packs alone.
#![tactic(auto)]

ghost use Rattle.calls.specs.Calls.{Promised, pack_called, terminal};

use model::{Answer, Settings};

// What a pack leaves beside the settings: the summed answer, and the record of its first refusal, counted from 1; 0 if there is none.
#[repr(C)]
#[derive(Clone, Copy)]
pub struct PackAnswer {
    pub answer: Answer,
    pub record: u32,
}

// Both, as a lent call takes its outcome apart.
#[derive(Clone, Copy)]
pub struct Sent {
    pub settings: Settings,
    pub answer: PackAnswer,
}

fn send(
    settings: Settings,
    pack: &[u8],
    cells: &mut [u8],
    layer: &mut [u8],
    shown: &mut [u8],
    dots: &mut [u8],
    printer: &mut [u8],
) -> Sent
    ensures { Promised (pack_called pack.now (terminal settings cells.old layer.old dots.old shown.old) printer.old result.answer.answer result.answer.record (terminal result.settings cells.new layer.new dots.new shown.new) printer.new) }
{
    let o = packs::pack(settings, pack, cells, layer, shown, dots, printer);
    let left = o.settings;
    let summed = o.answer;
    let answer = PackAnswer {
        answer: summed,
        record: o.record,
    };
    Sent {
        settings: left,
        answer,
    }
}

#[unsafe(no_mangle)]
pub extern "C" fn px8_pack_l2(
    settings: &mut Settings,
    answer: &mut PackAnswer,
    pack: &[u8],
    cells: &mut [u8],
    layer: &mut [u8],
    shown: &mut [u8],
    dots: &mut [u8],
    printer: &mut [u8],
)
    ensures { Promised (pack_called pack.now (terminal settings.old cells.old layer.old dots.old shown.old) printer.old answer.new.answer answer.new.record (terminal settings.new cells.new layer.new dots.new shown.new) printer.new) }
{
    let o = send(*settings, pack, cells, layer, shown, dots, printer);
    *settings = o.settings;
    *answer = o.answer;
}
