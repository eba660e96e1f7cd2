//! Cuts a text at a byte.

ghost use Rattle.std.specs.Prelude.{◌≡◌, ◌≢◌, ◌<◌, ◌∷◌, ◌++◌, All, MatchOption, length};
ghost use Rattle.dym_base.specs.Lines.{lines_of};

/// What stands before the first byte of this value and what stands after it, if there is one.
pub(crate) fn cut(bytes: &[u8], mark: u8) -> Option<(&[u8], &[u8])>
    ensures { MatchOption result (All (λ b. b ≢ mark) bytes.now)
        (λ parts. (bytes.now ≡ parts.0.now ++ mark ∷ parts.1.now)
        × All (λ b. b ≢ mark) parts.0.now) }
{
    let place = bytes.iter().position(|byte| *byte == mark)?;
    Some((&bytes[..place], &bytes[place + 1..]))
}

/// The first line, and what follows its end.
pub(crate) fn first_line(bytes: &[u8]) -> (&[u8], &[u8])
    requires { 0 < length bytes.now }
    ensures lines { lines_of bytes.now ≡ result.0.now ∷ lines_of result.1.now }
    ensures shorter { length result.1.now < length bytes.now }
{
    match cut(bytes, b'\n') {
        Some(parts) => parts,
        None => (bytes, &bytes[bytes.len()..]),
    }
}
