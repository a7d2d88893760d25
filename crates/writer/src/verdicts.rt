// Whether a sequence is refused: 3, and what the reader itself says of its bytes.
ghost use Rattle.std.specs.Prelude.{◌≡◌, cond};
ghost use Rattle.model.specs.Judging.{limits_of};
ghost use Rattle.model.specs.Sound.{sound?};
ghost use Rattle.writer.specs.Writing.{said_of_all};
ghost use Rattle.writer.specs.Promised.{Told};

use crate::{Reached, Refusal};
use model::{Item, Limits, Settings};
use spelling::Spelled;

// What parameters are judged by: those of the selected screen.
pub fn limits_of(settings: Settings) -> Limits
    ensures { result ≡ limits_of settings }
{
    let mode = settings.mode;
    let height = tables::height_of(mode, settings.display);
    let (lines, columns) = if settings.selected == 0 {
        (settings.lines1, settings.columns1)
    } else {
        (settings.lines2, settings.columns2)
    };
    Limits {
        mode,
        lines,
        columns,
        height,
    }
}

// The reader's word on the bytes, under the settings given and with room for a copy; 10 if there are more bytes than the sequence has.
pub fn judge(settings: Settings, spelled: &Spelled) -> Result<(), Refusal>
    ensures { Told (said_of_all settings spelled.now) result }
{
    let bytes = spelled.as_slice();
    let room = tables::copy_size(settings.mode);
    let reading = reader::read_item(limits_of(settings), room, bytes, 0);
    if reading.length < bytes.len() {
        return Err(Refusal {
            number: 10,
            parameter: 0,
        });
    }
    match reading.item {
        Item::Refused { number, parameter } => Err(Refusal { number, parameter }),
        _ => Ok(()),
    }
}

// More parameters than any sequence has: 10, after 3. (A Result would be made into the same answer a line further up.)
pub fn too_long(settings: Settings, place: usize) -> Reached
    ensures { result ≡ record { place = place; number = cond (sound? settings) 10 3; parameter = 0 } }
{
    let number = if soundness::sound(settings) { 10 } else { 3 };
    Reached {
        place,
        number,
        parameter: 0,
    }
}
