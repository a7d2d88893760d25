// Adler-32 (RFC 1950).
ghost use Rattle.std.specs.Prelude.{◌≡◌};
ghost use Rattle.report.specs.Adler.{adler_from, with_byte};

// The sum goes on from `sum` over `bytes`; that of all bytes starts from 1.
pub fn adler32(sum: u32, bytes: &[u8]) -> u32
    ensures { result ≡ adler_from sum bytes.now }
{
    let mut reached = sum;
    for byte in bytes {
        reached = with_byte(reached, *byte);
    }
    reached
}

fn with_byte(sum: u32, byte: u8) -> u32
    ensures { result ≡ with_byte sum byte }
{
    let low = (sum % 65536 + u32::from(byte)) % 65521;
    let high = (sum / 65536 + low) % 65521;
    high * 65536 + low
}
