// The messages of a pack that was judged, one after the other.
ghost use Rattle.std.specs.Prelude.{◌≡◌, cond, eqb, is_some, None, Some};
ghost use Rattle.calls.specs.Calls.{Asked, PackPromised, first_of, reasons, terminal};

use counting::no_counts;
use model::{Answer, PackOutcome, Settings};
use records::length_at;
use serving::serve_from;
use stream_parts::together;

// "the first refusal with its record": the record found so far, after message `number` with so many refusals.
fn record_then(own: u32, number: u32, found: Option<u32>) -> Option<u32>
    ensures { result ≡ cond (is_some found) found (cond (eqb own 0) None (Some number)) }
{
    found.or((own != 0).then_some(number))
}

// "the printer bytes of each following those before, each having the room left over": each body is served with what is left of the printer buffer. None is
// judged again: what a message leaves is sound, and nothing waits. Only the last paints: nobody sees the glass inside a call.
// From record to record as in checking.
pub(crate) fn send_each(
    settings: Settings,
    pack: &[u8],
    cells: &mut [u8],
    layer: &mut [u8],
    shown: &mut [u8],
    dots: &mut [u8],
    printer: &mut [u8],
) -> PackOutcome
    requires { first_of (reasons (terminal settings cells.old layer.old dots.old shown.old) (Asked.pack pack.now)) ≡ 0 }
    ensures { PackPromised settings pack.now cells.old layer.old dots.old shown.old printer.old result cells.new layer.new dots.new shown.new printer.new }
{
    let mut s = settings;
    let mut answer = Answer::default();
    let mut found = None;
    let mut number = 0;
    let mut at = 0;
    while at < pack.len() {
        let start = at + 4;
        let end = start + length_at(pack, at) as usize;
        let used = answer.printed;
        let none = no_counts();
        let out = serve_from(
            s,
            &pack[start..end],
            0,
            none,
            end == pack.len(),
            cells,
            layer,
            shown,
            dots,
            &mut printer[used..],
        );
        number += 1;
        found = record_then(out.answer.refused, number, found);
        answer = together(answer, out.answer, 0);
        s = out.settings;
        at = end;
    }
    PackOutcome {
        settings: s,
        answer,
        record: found.unwrap_or(0),
    }
}
