// Sequences written into an outgoing buffer, one behind another (document 02, P7). When one is refused, what is answered and what the buffer then
// holds is in specs/Writing; the bytes are the crate `spelling`'s, the refusals the reader's own.
#![tactic(auto)]

ghost use Rattle.std.specs.Prelude.{◌≡◌};
ghost use Rattle.writer.specs.Writing.{wanted, wanted_by};
ghost use Rattle.writer.specs.Promised.{WritePromised, wrote};

mod gathering;
mod laying;
mod verdicts;

use gathering::gather;
use laying::write_spelled;
use model::{Sequence, Settings};
use spelling::spell;

// The answer of a call that writes: the place reached in the buffer, 0 or the number of the refusal, and with 11 the parameter that it names.
// (Numbers, for C reads it; a refusal has its place too, so that no `From<Result<..>>` makes it.)
#[repr(C)]
#[derive(Clone, Copy)]
pub struct Reached {
    pub place: usize,
    pub number: u8,
    pub parameter: u8,
}

// Why a sequence is not written: the number, and with 11 the parameter that it names.
#[derive(Clone, Copy)]
pub struct Refusal {
    pub number: u8,
    pub parameter: u8,
}

// A writer "carries the outgoing buffer and the place reached in it".
#[derive(Drop)]
pub struct Writer<'a> {
    pub buffer: &'a mut [u8],
    pub place: usize,
}

// One named sequence, from a place of the buffer on; `rows` are a pattern's.
pub fn write_at(
    settings: Settings,
    buffer: &mut [u8],
    place: usize,
    sequence: Sequence,
    rows: [u8; 8],
) -> Reached
    ensures { WritePromised settings (wanted settings sequence rows) buffer.old place buffer.new result }
{
    write_spelled(settings, buffer, place, spell(sequence, rows))
}

// The same for a caller that cannot hand over a named sequence: its second byte, and its parameters as sent. Bytes that are no sequence of the
// list are refused by the number that the reader gives them, and by 10 if there are too many.
pub fn write_bytes(
    settings: Settings,
    second: u8,
    parameters: &[u8],
    buffer: &mut [u8],
    place: usize,
) -> Reached
    ensures { WritePromised settings (wanted_by settings second parameters.now) buffer.old place buffer.new result }
{
    if 11 < parameters.len() {
        return verdicts::too_long(settings, place);
    }
    write_spelled(settings, buffer, place, gather(second, parameters))
}

// A writer over a buffer, from a place of it on.
pub fn new<'a>(buffer: &'a mut [u8], place: usize) -> Writer<'a>
    ensures { (result.buffer ≡ buffer.entry) × (result.place ≡ place) }
{
    Writer { buffer, place }
}

// One sequence more, behind those before it.
pub fn write<'s, 'a>(
    w: &'s mut Writer<'a>,
    settings: Settings,
    sequence: Sequence,
    rows: [u8; 8],
) -> Reached
    ensures { WritePromised settings (wanted settings sequence rows) w.old.buffer.now w.old.place w.new.buffer.now result × (w.new ≡ wrote w.old settings (wanted settings sequence rows)) }
{
    let place = w.place;
    let reached = write_at(settings, &mut *w.buffer, place, sequence, rows);
    w.place = reached.place;
    reached
}
