// The numbers by which calls are refused, in their order.
#![tactic(auto)]

ghost use Rattle.std.specs.Prelude.{◌≡◌, [], cond};
ghost use Rattle.calls.specs.Calls.{Asked, first_of, reasons, sized, terminal};
ghost use Rattle.model.specs.Keyable.{keyable};
ghost use Rattle.model.specs.Items.{blank_answer};
ghost use Rattle.model.specs.Refusals.{check_number};
ghost use Rattle.calls.specs.Opening.{opening_number, ruled, unopened};

use model::{Answer, CELLS, DOTS, LAYER, MESSAGE, Refusal, SHOWN, Settings};

// Whether the stores are of their sizes.
fn stores_sized(cells: &[u8], layer: &[u8], shown: &[u8], dots: &[u8]) -> bool
    ensures { result ≡ sized (unopened cells.now layer.now dots.now shown.now) }
{
    (cells.len() == CELLS)
        & ((layer.len() == LAYER) & ((dots.len() == DOTS) & (shown.len() == SHOWN)))
}

// 1: "a store is not of its size"
pub fn check_stores(cells: &[u8], layer: &[u8], shown: &[u8], dots: &[u8]) -> Result<(), Refusal>
    ensures { check_number result ≡ cond (sized (unopened cells.now layer.now dots.now shown.now)) 0 1 }
{
    if stores_sized(cells, layer, shown, dots) {
        Ok(())
    } else {
        Err(Refusal::StoreSize)
    }
}

// P9: the rule numbers are 1 and 2
fn ruled(rule: usize) -> bool
    ensures { result ≡ ruled rule }
{
    (rule == 1) | (rule == 2)
}

// "Another rule number is 23, after 1": what an opening call is refused by
pub fn check_opening(
    rule: usize,
    cells: &[u8],
    layer: &[u8],
    shown: &[u8],
    dots: &[u8],
) -> Result<(), Refusal>
    ensures { check_number result ≡ opening_number rule (unopened cells.now layer.now dots.now shown.now) }
{
    check_stores(cells, layer, shown, dots)?;
    if ruled(rule) {
        Ok(())
    } else {
        Err(Refusal::BadRule)
    }
}

// "Calls are checked in the order 1, 2, 3"; 16, "a whole message while bytes wait", is after 3: what a message call is refused by.
// 3 is asked part by part, and of a line on which none waits by its own short test: so the way of a message that is served is inlined.
// The settings are lent: by value they are copied once more, and the lines of pieces come to 1.02 to 1.04.
pub fn check_message(
    settings: &Settings,
    message: &[u8],
    cells: &[u8],
    layer: &[u8],
    shown: &[u8],
    dots: &[u8],
) -> Result<(), Refusal>
    ensures { check_number result ≡ first_of (reasons (terminal settings.now cells.now layer.now dots.now shown.now) (Asked.message message.now)) }
{
    check_stores(cells, layer, shown, dots)?;
    if message.len() > MESSAGE {
        return Err(Refusal::TooLong);
    }
    if !soundness::shaped(settings) {
        return Err(Refusal::Unsound);
    }
    let placed = soundness::placed(settings);
    let stored = soundness::stored(*settings);
    let marked = soundness::marked(settings);
    if !(placed & stored & marked) {
        return Err(Refusal::Unsound);
    }
    let waiting = settings.waiting;
    if unfinished::quiet(waiting, settings.held, settings.count) {
        return Ok(());
    }
    if unfinished::sound(waiting, settings.held, settings.count) {
        Err(Refusal::BytesWait)
    } else {
        Err(Refusal::Unsound)
    }
}

// 17: "a key number outside 1 to 10 or a text not of 8 bytes"; here, that it is neither
fn keyable(number: usize, text: &[u8]) -> bool
    ensures { result ≡ keyable number text.now }
{
    (1 <= number) & ((number <= 10) & (text.len() == 8))
}

// "17, after 3": what a key call is refused by, whatever the stores
pub fn check_key(settings: Settings, number: usize, text: &[u8]) -> Result<(), Refusal>
    ensures { check_number result ≡ first_of (reasons (terminal settings [] [] [] []) (Asked.key_text number text.now)) }
{
    if !soundness::sound(settings) {
        return Err(Refusal::Unsound);
    }
    if !keyable(number, text) {
        return Err(Refusal::BadKeyText);
    }
    Ok(())
}

// "zero counts, its number"
pub fn refused(refusal: Refusal) -> Answer
    ensures { result ≡ blank_answer (check_number (Err refusal)) 0 }
{
    Answer {
        number: refusal.into(),
        ..Answer::default()
    }
}
