// Bytes put into a lent buffer from a place on; the rest of it stays. What is told is the place after the last byte, or
// none where not all of them fit.
ghost use Rattle.std.specs.Prelude.{[], ◌∷◌};
ghost use Rattle.text.specs.Contract.{Wrote};

// One byte.
pub fn put(out: &mut [u8], n: usize, b: u8) -> Option<usize>
    ensures { Wrote out.old out.new n (b ∷ []) result }
{
    if n >= out.len() {
        return None;
    }
    out[n] = b;
    Some(n + 1)
}

// A slice, as far as it fits.
pub fn put_all(out: &mut [u8], n: usize, s: &[u8]) -> Option<usize>
    ensures { Wrote out.old out.new n s.now result }
{
    if n > out.len() {
        return None;
    }
    let m = s.len().min(out.len() - n);
    // Stays a loop over places: copy_from_slice calls memmove, which a library for C would newly need from outside.
    for i in 0..m {
        out[n + i] = s[i];
    }
    if m < s.len() {
        return None;
    }
    Some(n + m)
}
