// What a pack call is refused by: "The whole pack is checked for each number before the next."
ghost use Rattle.std.specs.Prelude.{◌≡◌};
ghost use Rattle.model.specs.Refusals.{check_number};
ghost use Rattle.calls.specs.Calls.{Asked, first_of, reasons, terminal};
ghost use Rattle.packs.specs.Bytes.{of_bytes};

use model::{MESSAGE, PACK, Refusal, Settings};
use numbers::check_stores;
use records::{kind_at, length_at};

// "Refusals, after 1: 19 too long, 20 cut record, 21 unknown kind, then 2": what its bytes are refused by. Its records are walked over twice: none is
// looked at before it is known that none is cut. `at` goes by the length that each record gives, as no range does; an iterator of records would be a type with
// laws of its own, more than the two loops that would use it.
fn check_bytes(pack: &[u8]) -> Result<(), Refusal>
    ensures { check_number result ≡ first_of (of_bytes pack.now) }
{
    if pack.len() > PACK {
        return Err(Refusal::PackTooLong);
    }
    if !records::uncut(pack) {
        return Err(Refusal::CutRecord);
    }
    let mut known = true;
    let mut few = true;
    let mut at = 0;
    while at < pack.len() {
        let size = length_at(pack, at) as usize;
        known = known & (kind_at(pack, at) == 1);
        few = few & (size <= MESSAGE);
        at += size + 4;
    }
    if !known {
        return Err(Refusal::UnknownRecord);
    }
    if !few {
        return Err(Refusal::TooLong);
    }
    Ok(())
}

// "then 2 and 3, with 16 from P1 after 3"
pub(crate) fn check_pack(
    settings: Settings,
    pack: &[u8],
    cells: &[u8],
    layer: &[u8],
    shown: &[u8],
    dots: &[u8],
) -> Result<(), Refusal>
    ensures { check_number result ≡ first_of (reasons (terminal settings cells.now layer.now dots.now shown.now) (Asked.pack pack.now)) }
{
    check_stores(cells, layer, shown, dots)?;
    check_bytes(pack)?;
    if !soundness::sound(settings) {
        return Err(Refusal::Unsound);
    }
    if settings.held != 0 {
        return Err(Refusal::BytesWait);
    }
    Ok(())
}
