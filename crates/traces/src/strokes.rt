// The records of a trace, and what it is refused for before a code is counted.
ghost use Rattle.std.specs.Prelude.{◌≡◌, true, false, MatchOption, MatchResult};
ghost use Rattle.std.specs.List.{list_all};
ghost use Rattle.calls.specs.Calls.{first_of};
ghost use Rattle.model.specs.Records.{records_of, all?, uncut?};
ghost use Rattle.traces.specs.Strokes.{stroke?, rising?};
ghost use Rattle.traces.specs.Call.{checks, number_of};
ghost use Rattle.traces.specs.Stepping.{stroke_bytes?, stroke_read, strokes_read, AreStrokesOf};

use crate::{Refusal, Stroke};
use model::Settings;

// Whether nine bytes are a stroke: "kind or body length".
fn is_stroke(bytes: &[u8; 9]) -> bool
    ensures { result ≡ stroke_bytes? bytes.now }
{
    let kind = records::kind_at(bytes, 0);
    let length = records::length_at(bytes, 0);
    ((kind == 1) | (kind == 2)) & (length == 5)
}

// Whether all of them are.
fn all_strokes(strokes: &[[u8; 9]]) -> bool
    ensures { result ≡ list_all stroke_bytes? strokes.now }
{
    strokes.iter().all(is_stroke)
}

// 21: the strokes of a trace, nine bytes each; none where a record is no stroke.
fn strokes_of(trace: &[u8]) -> Option<&[[u8; 9]]>
    requires { uncut? trace.now ≡ true }
    ensures { MatchOption result (all? stroke? (records_of trace.now) ≡ false) (λ strokes. (all? stroke? (records_of trace.now) ≡ true) × AreStrokesOf trace.now strokes.now) }
{
    let (strokes, rest) = trace.as_chunks::<9>();
    if rest.is_empty() && all_strokes(strokes) {
        Some(strokes)
    } else {
        None
    }
}

// What the nine bytes of a stroke hold.
impl From<&[u8; 9]> for Stroke {
    ghost from_gives = { λ bytes stroke. stroke ≡ stroke_read bytes.now };

    fn from(bytes: &[u8; 9]) -> Stroke {
        Stroke {
            press: records::kind_at(bytes, 0) == 1,
            tick: u32::from_le_bytes([bytes[4], bytes[5], bytes[6], bytes[7]]),
            key: bytes[8],
        }
    }
}

// 24: whether no tick falls.
fn rising(strokes: &[[u8; 9]]) -> bool
    ensures { result ≡ rising? 0 (strokes_read strokes.now) }
{
    let mut last = 0;
    for bytes in strokes {
        let stroke = Stroke::from(bytes);
        if stroke.tick < last {
            return false;
        }
        last = stroke.tick;
    }
    true
}

// "Refusals, in order over the whole trace", but for the output's; else the trace's strokes, nine bytes each.
pub(crate) fn check(settings: Settings, trace: &[u8]) -> Result<&[[u8; 9]], Refusal>
    ensures { MatchResult result (λ strokes. (first_of (checks settings trace.now) ≡ 0) × AreStrokesOf trace.now strokes.now) (λ e. number_of e ≡ first_of (checks settings trace.now)) }
{
    if !soundness::sound(settings) {
        return Err(Refusal::Unsound);
    }
    if trace.len() > 60000 {
        return Err(Refusal::TooLong);
    }
    if !records::uncut(trace) {
        return Err(Refusal::CutRecord);
    }
    let Some(strokes) = strokes_of(trace) else {
        return Err(Refusal::UnknownKind);
    };
    if !rising(strokes) {
        return Err(Refusal::FallingTick);
    }
    Ok(strokes)
}
