// Recordings of calls, read record by record: body length and kind, two bytes each, little-endian, then the body.
#![tactic(auto)]

ghost use Rattle.std.specs.Prelude.{◌≡◌, true, false, ◌+◌, ◌/◌, ◌%◌, ◌<◌, ◌≤◌, [], ◌∷◌, IfOk, IfSome, MatchOption, MatchResult, length};
ghost use Rattle.record_input.specs.Records.{has_call, body_of, kind_of, size_of};

use input::read_full;
use std::io::Read;

// Why a recording ends before its end: a record that is cut, passes the limit or asks for nothing.
#[derive(Clone, Copy, Debug, PartialEq, Eq, Drop)]
pub struct BadRecord;

// A record as it stands in a recording.
#[derive(Clone, Copy, Drop)]
pub struct Record<'a> {
    pub kind: u16,
    pub body: &'a [u8],
}

// What a record asks for, each kind with its body: a message, a piece of a stream, its closing, a key's number and text, a pack, a short message, an opening's
// rule, the printer room of the calls behind it.
#[derive(Clone, Copy, Drop)]
pub enum Call<'a> {
    Message(&'a [u8]),
    Piece(&'a [u8]),
    Closing,
    KeyText(u8, &'a [u8]),
    Pack(&'a [u8]),
    Short(&'a [u8]),
    Opening(u8),
    Room(usize),
}

// The most printer room that a record can ask for.
pub const MOST_ROOM: usize = 8192;

// The next record, none at the end. Callers lend 65,536 bytes, in which every body fits. It only reads: what comes in is not for a contract to say, but for
// the length that a head can give.
pub fn next_record<'a, R: Read>(
    from: &mut R,
    buffer: &'a mut [u8],
) -> Result<Option<Record<'a>>, BadRecord>
    ensures { IfOk result (λ o. IfSome o (λ r. length r.body.now < 65536)) }
{
    let mut head = [0u8; 4];
    match read_full(from, &mut head) {
        0 => Ok(None),
        4 => {
            let [l, m, k, n] = head;
            let body = next_body(from, buffer, usize::from(u16::from_le_bytes([l, m])))?;
            Ok(Some(Record {
                kind: u16::from_le_bytes([k, n]),
                body,
            }))
        }
        _ => Err(BadRecord),
    }
}

// A body of that length.
fn next_body<'a, R: Read>(
    from: &mut R,
    buffer: &'a mut [u8],
    size: usize,
) -> Result<&'a [u8], BadRecord>
    ensures { IfOk result (λ b. length b.now ≡ size) }
{
    let body = buffer.get_mut(..size).ok_or(BadRecord)?;
    if read_full(from, body) < size {
        return Err(BadRecord);
    }
    Ok(body)
}

// The next call, none at the recording's end. `left` are the bytes that the recording may still have; those of the record are taken off.
pub fn next_call<'a, R: Read>(
    from: &mut R,
    left: &mut usize,
    buffer: &'a mut [u8],
) -> Result<Option<Call<'a>>, BadRecord>
    ensures at_most_a_record { (left.new ≤ left.old) × (left.old ≤ left.new + 65539) }
    ensures taken_off { MatchResult result (λ o. MatchOption o (left.new ≡ left.old) (λ c. left.old ≡ left.new + size_of c)) (λ _. left.new ≡ left.old) }
{
    let Some(record) = next_record(from, buffer)? else {
        return Ok(None);
    };
    let call = Call::try_from(record)?;
    let size = record.body.len() + 4;
    if size > *left {
        return Err(BadRecord);
    }
    *left -= size;
    Ok(Some(call))
}

// The call whose record it is, or there is none. A closing has no body, a key text a byte at least, an opening one byte, a printer room two.
impl<'a> TryFrom<Record<'a>> for Call<'a> {
    type Error = BadRecord;

    ghost try_from_gives = { λ r result. MatchResult result (λ c. (has_call r.kind r.body.now ≡ true) × ((kind_of c ≡ r.kind) × (body_of c ≡ r.body.now))) (λ _. has_call r.kind r.body.now ≡ false) };

    #[tactic(auto, unfolding(crate::specs::Records::has_call))]
    fn try_from(record: Record<'a>) -> Result<Call<'a>, BadRecord> {
        let body = record.body;
        match (record.kind, body) {
            (1, _) => Ok(Call::Message(body)),
            (2, _) => Ok(Call::Piece(body)),
            (3, []) => Ok(Call::Closing),
            (4, [key, text @ ..]) => Ok(Call::KeyText(*key, text)),
            (5, _) => Ok(Call::Pack(body)),
            (6, _) => Ok(Call::Short(body)),
            (7, [rule]) => Ok(Call::Opening(*rule)),
            (8, [low, high]) => room(u16::from_le_bytes([*low, *high])),
            _ => Err(BadRecord),
        }
    }
}

fn room<'a>(bytes: u16) -> Result<Call<'a>, BadRecord>
    ensures { MatchResult result (λ c. (bytes ≤ 8192) × ((kind_of c ≡ 8) × (body_of c ≡ bytes % 256 ∷ bytes / 256 ∷ []))) (λ _. 8192 < bytes) }
{
    match usize::from(bytes) {
        room @ 0..=MOST_ROOM => Ok(Call::Room(room)),
        _ => Err(BadRecord),
    }
}
