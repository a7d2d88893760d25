// The record form (document 02, P6): body length and kind, two bytes each, little-endian, then the body. Who steps from record to record
// stands at a record's first byte, `at`, and goes on by 4 bytes and the body's length.
#![tactic(auto)]

ghost use Rattle.std.specs.Prelude.{◌≡◌, ◌+◌, ◌*◌, ◌≤◌, length, drop};
ghost use Rattle.model.specs.Records.{length_in, kind_in, uncut?};

// Two bytes, little-endian.
pub fn little(low: u8, high: u8) -> u16
    ensures { result ≡ low + 256 * high }
{
    u16::from_le_bytes([low, high])
}

// The length of the body, of the record at `at`.
pub fn length_at(bytes: &[u8], at: usize) -> u16
    requires { at + 2 ≤ length bytes.now }
    ensures { result ≡ length_in (drop at bytes.now) }
{
    u16::from_le_bytes([bytes[at], bytes[at + 1]])
}

// Its kind.
pub fn kind_at(bytes: &[u8], at: usize) -> u16
    requires { at + 4 ≤ length bytes.now }
    ensures { result ≡ kind_in (drop at bytes.now) }
{
    u16::from_le_bytes([bytes[at + 2], bytes[at + 3]])
}

// 20: "cut record"; here, that there is none.
pub fn uncut(bytes: &[u8]) -> bool
    ensures { result ≡ uncut? bytes.now }
{
    let mut rest = bytes;
    while rest.len() >= 4 {
        let size = usize::from(length_at(rest, 0)) + 4;
        if rest.len() < size {
            return false;
        }
        rest = &rest[size..];
    }
    rest.is_empty()
}
