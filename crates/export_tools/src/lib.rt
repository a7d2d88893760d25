// The calls for C and Rust that serve no message: the text of a key, the differences of two screens, the repeats of keys, a sequence written; settings and answer lent,
// slices as pointer and length. Each promises what its crate's own call does; c/px8.h says it for C.
#![tactic(auto)]

ghost use Rattle.calls.specs.Calls.{KeyPromised};
ghost use Rattle.differences.specs.Answers.{ComparePromised, FirstPromised};
ghost use Rattle.traces.specs.Call.{RepeatsPromised};
ghost use Rattle.writer.specs.Promised.{WritePromised};
ghost use Rattle.writer.specs.Writing.{wanted_by};

use differences::{Compared, Difference, FirstValues};
use model::{Answer, Settings};
use traces::Repeats;
use writer::Reached;

// Document 02, P2: the text of a key, which row 8 shows under ESC 211,0 from the next message on.
#[unsafe(no_mangle)]
pub extern "C" fn px8_key_text_l2(
    settings: &mut Settings,
    answer: &mut Answer,
    number: usize,
    text: &[u8],
)
    ensures { KeyPromised number text.now settings.old answer.new settings.new }
{
    let o = terminal::key(*settings, number, text);
    *settings = o.settings;
    *answer = o.answer;
}

// Document 02, P4: a record for each place where two shown screens differ.
#[unsafe(no_mangle)]
pub extern "C" fn px8_compare_l2(
    answer: &mut Compared,
    first: &[u8],
    second: &[u8],
    list: &mut [Difference],
)
    ensures { ComparePromised first.now second.now list.old answer.new list.new }
{
    *answer = differences::compare(first, second, list);
}

// Only the first of them, in numbers: an enum cannot be handed to C.
#[unsafe(no_mangle)]
pub extern "C" fn px8_first_difference_l2(answer: &mut FirstValues, first: &[u8], second: &[u8])
    ensures { FirstPromised first.now second.now answer.new }
{
    *answer = differences::first_difference(first, second).into();
}

// Document 02, P13: the codes that a trace of presses and releases sends.
#[unsafe(no_mangle)]
pub extern "C" fn px8_key_repeats_l2(
    settings: &Settings,
    answer: &mut Repeats,
    trace: &[u8],
    output: &mut [u8],
)
    ensures { RepeatsPromised settings.now trace.now output.old answer.new output.new }
{
    *answer = traces::key_repeats(*settings, trace, output);
}

// Document 02, P7: a sequence written into an outgoing buffer from a place on, by its second byte and its parameters, since an enum cannot be handed over by C.
#[unsafe(no_mangle)]
pub extern "C" fn px8_write_l2(
    settings: &Settings,
    answer: &mut Reached,
    second: u8,
    parameters: &[u8],
    buffer: &mut [u8],
    place: usize,
)
    ensures { WritePromised settings.now (wanted_by settings.now second parameters.now) buffer.old place buffer.new answer.new }
{
    *answer = writer::write_bytes(*settings, second, parameters, buffer, place);
}
