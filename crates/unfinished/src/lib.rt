// The unfinished bytes of a stream (document 02, P1): which bytes of a piece are whole items, which wait, and whether bytes may wait so.
#![tactic(auto)]

ghost use Rattle.std.specs.Prelude.{◌≡◌, ◌-◌, ◌==◌, not, fold, true, ◌&&◌, ◌+◌, ◌≤◌, ◌++◌, drop, MatchOption, length, take, eqb};
ghost use Rattle.model.specs.Line.{line?, padded, unfinished_by, zeros?};
ghost use Rattle.unfinished.specs.Whole.{counted_right, whole_end, whole_item};

// The end of the whole items. An unfinished sequence has at most twelve bytes: where none of the last twelve is an ESC, nothing is looked at.
pub fn whole_end(bytes: &[u8]) -> usize
    ensures { result ≡ whole_end bytes.now }
{
    if no_late_escape(bytes) {
        return bytes.len();
    }
    let mut rest = bytes;
    while let Some(length) = whole_item(rest) {
        rest = &rest[length..];
    }
    bytes.len() - rest.len()
}

// How many bytes the item in front has, if it is whole.
fn whole_item(bytes: &[u8]) -> Option<usize>
    ensures { MatchOption result (whole_item bytes.now ≡ 0) (λ n. (n ≡ whole_item bytes.now) × ((1 ≤ n) × (n ≤ length bytes.now))) }
{
    let first = *bytes.first()?;
    if first != 27 {
        return Some(1);
    }
    let second = *bytes.get(1)?;
    let length = tables::length_of(second, decoding::byte(bytes, 2));
    if length == 0 {
        return Some(2);
    }
    if bytes.len() < length {
        None
    } else {
        Some(length)
    }
}

// Whether none of the last twelve bytes is an ESC. It never stops early, so that a compiler tests them all at once.
fn no_late_escape(bytes: &[u8]) -> bool
    ensures { result ≡ fold (λ none b. none && not (b == 27)) true (drop (length bytes.now - 12) bytes.now) }
{
    let late = bytes.len().saturating_sub(12);
    bytes[late..]
        .iter()
        .fold(true, |none, byte| none & (*byte != 27))
}

// The bytes that wait, and so many bytes of a piece behind them.
pub fn join(waiting: [u8; 12], held: usize, piece: &[u8], count: usize) -> [u8; 64]
    requires { (held ≤ 12) × ((count ≤ 52) × (count ≤ length piece.now)) }
    ensures { take (held + count) result ≡ take held waiting ++ take count piece.now }
{
    let mut bytes = [0u8; 64];
    bytes[..held].copy_from_slice(&waiting[..held]);
    bytes[held..held + count].copy_from_slice(&piece[..count]);
    bytes
}

// Bytes that wait, as the settings have them.
pub fn padded(rest: &[u8]) -> [u8; 12]
    requires { length rest.now ≤ 12 }
    ensures { result ≡ padded rest.now }
{
    let mut bytes = [0u8; 12];
    bytes[..rest.len()].copy_from_slice(rest);
    bytes
}

// Whether so many bytes, the first three of them these, are an unfinished sequence.
fn begun(held: u8, first: u8, second: u8, third: u8) -> bool
    ensures { result ≡ unfinished_by held first second third }
{
    if held == 0 {
        return true;
    }
    if first != 27 {
        return false;
    }
    if held == 1 {
        return true;
    }
    usize::from(held) < tables::length_of(second, third)
}

// "at most 12", "no longer than the count", "up to 1,000,000,000".
fn counted(held: u8, count: u32) -> bool
    ensures { result ≡ counted_right held count }
{
    (held <= 12) & (u32::from(held) <= count) & (count <= 1000000000)
}

// Whether the bytes that do not wait are 0.
fn clean(waiting: [u8; 12], held: u8) -> bool
    ensures { result ≡ zeros? (drop held waiting) }
{
    let mut all = true;
    for (i, byte) in waiting.iter().enumerate() {
        all &= (i < usize::from(held)) | (*byte == 0);
    }
    all
}

// "Waiting bytes are sound only as an unfinished sequence no longer than the count".
pub fn sound(waiting: [u8; 12], held: u8, count: u32) -> bool
    ensures { result ≡ line? waiting held count }
{
    let begun = begun(held, waiting[0], waiting[1], waiting[2]);
    let counted = counted(held, count);
    let clean = clean(waiting, held);
    begun & counted & clean
}

// The same where none waits, which is what a message asks: short enough to be inlined into its call.
pub fn quiet(waiting: [u8; 12], held: u8, count: u32) -> bool
    ensures { result ≡ (eqb held 0 && line? waiting held count) }
{
    (held == 0) & (count <= 1000000000) & (waiting == [0; 12])
}
