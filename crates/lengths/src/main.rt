// Prints document 01's list of lengths, a bare number a line: for second bytes 0 to 255 the list's length (0 for 208, which the list gives by
// the mode byte, and where it has none), then 208's for mode bytes 0 to 255.
#![tactic(auto)]

ghost use Rattle.std.specs.Prelude.{◌≡◌, cond, eqb};
ghost use Rattle.tables.specs.Lengths.{length_of};

fn main(rt: HostRuntime) {
    for second in 0..=255u8 {
        let _ = println!(rt; "{}", listed(second));
    }
    for mode in 0..=255u8 {
        let _ = println!(rt; "{}", tables::length_of(208, mode));
    }
}

// The length by the second byte alone.
fn listed(second: u8) -> usize
    ensures { result ≡ cond (eqb second 208) 0 (length_of second 0) }
{
    if second == 208 {
        0
    } else {
        tables::length_of(second, 0)
    }
}
