// Bytes into the buffer, once nothing refuses them.
ghost use Rattle.writer.specs.Writing.{said_of_all};
ghost use Rattle.writer.specs.Promised.{Laid, WritePromised, reached};

use crate::verdicts::judge;
use crate::{Reached, Refusal};
use model::Settings;
use spelling::Spelled;

// What is answered: the place behind the bytes, or the refusal and the place as it was.
pub fn write_spelled(
    settings: Settings,
    buffer: &mut [u8],
    place: usize,
    spelled: Spelled,
) -> Reached
    ensures { WritePromised settings (record { word = said_of_all settings spelled; bytes = spelled }) buffer.old place buffer.new result }
{
    match lay_unless_refused(settings, buffer, place, &spelled) {
        Ok(behind) => Reached {
            place: behind,
            number: 0,
            parameter: 0,
        },
        Err(refusal) => Reached {
            place,
            number: refusal.number,
            parameter: refusal.parameter,
        },
    }
}

// "Refusals: 3 first; 22, no space (or a place past the buffer), last; buffer and place stay."
fn lay_unless_refused(
    settings: Settings,
    buffer: &mut [u8],
    place: usize,
    spelled: &Spelled,
) -> Result<usize, Refusal>
    ensures { WritePromised settings (record { word = said_of_all settings spelled.now; bytes = spelled.now }) buffer.old place buffer.new (reached place result) }
{
    if !soundness::sound(settings) {
        return Err(Refusal {
            number: 3,
            parameter: 0,
        });
    }
    judge(settings, spelled)?;
    lay(buffer, place, spelled)
}

// All bytes from the place on, or 22 and none.
fn lay(buffer: &mut [u8], place: usize, spelled: &Spelled) -> Result<usize, Refusal>
    ensures { Laid buffer.old place spelled.now buffer.new (reached place result) }
{
    let bytes = spelled.as_slice();
    let length = bytes.len();
    if buffer.len() < place || buffer.len() - place < length {
        return Err(Refusal {
            number: 22,
            parameter: 0,
        });
    }
    store::copy_in(buffer, place, bytes, 0, length);
    Ok(place + length)
}
