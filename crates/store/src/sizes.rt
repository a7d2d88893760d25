// Sizes and indices: a byte as one, and the lesser of two.
ghost use Rattle.std.specs.Prelude.{◌≡◌, min};

// A byte as an index.
pub fn as_size(x: u8) -> usize
    ensures { result ≡ x }
{
    usize::from(x)
}

// The lesser of two.
pub fn lesser(x: usize, y: usize) -> usize
    ensures { result ≡ min x y }
{
    x.min(y)
}
