// What the answer counts while a message is served, item by item, and the answer that the counts make.
#![tactic(auto)]

ghost use Rattle.std.specs.Prelude.{◌≡◌, eqb, ◌<◌};
ghost use Rattle.model.specs.Sequences.{code_of};
ghost use Rattle.model.specs.Items.{printer_bytes};
ghost use Rattle.counting.specs.Counting.{no_counts, accepted_with, refused_with, counts_with, answer_at, Accepting, Countable};

use model::{Answer, Item, Sequence};

// What the answer counts, while a message is served.
#[derive(Clone, Copy, Default)]
pub struct Counts {
    pub accepted: u32,
    pub refused: u32,
    pub first: u8,
    pub parameter: u8,
    pub offset: u32,
    pub printed: usize,
}

// None yet.
pub fn no_counts() -> Counts
    ensures { result ≡ no_counts }
{
    Counts::default()
}

// Whether a sequence is 80.
pub fn is_copy(q: Sequence) -> bool
    ensures { result ≡ eqb (code_of q) 80 }
{
    matches!(q, Sequence::Copy)
}

// One item more, read in a mode at an offset: "sequences accepted, sequences refused, number and offset of the first refusal .., printer bytes".
pub fn count(counts: Counts, mode: u8, item: Item, at: usize) -> Counts
    requires { Countable counts mode item at }
    ensures { result ≡ counts_with mode item at counts }
{
    match item {
        Item::Printed(_) | Item::Control(_) => counts,
        Item::Sequence(q) => accept(counts, printer_bytes(mode, q)),
        Item::Refused { number, parameter } => refuse(counts, number, parameter, at as u32),
    }
}

// The printer bytes of an accepted sequence: a copy's, by the mode.
fn printer_bytes(mode: u8, q: Sequence) -> usize
    ensures { result ≡ printer_bytes mode (Item.Sequence q) }
{
    if is_copy(q) {
        tables::copy_size(mode)
    } else {
        0
    }
}

// A sequence accepted, with so many printer bytes.
fn accept(counts: Counts, bytes: usize) -> Counts
    requires { Accepting counts bytes }
    ensures { result ≡ accepted_with bytes counts }
{
    Counts {
        accepted: counts.accepted + 1,
        printed: counts.printed + bytes,
        ..counts
    }
}

// A refusal, the first with its number, the parameter that it names, and its offset.
fn refuse(counts: Counts, number: u8, parameter: u8, at: u32) -> Counts
    requires { counts.refused < 4096 }
    ensures { result ≡ refused_with number parameter at counts }
{
    if counts.refused == 0 {
        return Counts {
            refused: 1,
            first: number,
            parameter,
            offset: at,
            ..counts
        };
    }
    Counts {
        refused: counts.refused + 1,
        ..counts
    }
}

// The answer when all bytes are taken. (A `From` of both, in a pair, would be no plainer.)
pub fn answer_of(counts: Counts, taken: usize) -> Answer
    requires { taken < 5000 }
    ensures { result ≡ answer_at taken counts }
{
    Answer {
        number: 0,
        taken: taken as u32,
        accepted: counts.accepted,
        refused: counts.refused,
        first: counts.first,
        parameter: counts.parameter,
        offset: counts.offset,
        printed: counts.printed,
    }
}
