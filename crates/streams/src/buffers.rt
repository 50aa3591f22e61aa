// Zeros that bytes are read into.
ghost use Rattle.std.specs.Prelude.{◌≡◌, length};

// As many as the caller's array has.
pub fn zeros<const N: usize>() -> [u8; N]
    ensures { N ≡ length result }
{
    [0; N]
}
