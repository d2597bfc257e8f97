// Bytes cut in two.
ghost use Rattle.layout.specs.Splits.{Splits};

// What stands before the first byte `mark` and what stands behind it, if it stands anywhere.
pub(crate) fn split_once(bytes: &[u8], mark: u8) -> Option<(&[u8], &[u8])>
    ensures { Splits bytes.now mark result }
{
    let i = bytes.iter().position(|b| *b == mark)?;
    Some((&bytes[..i], &bytes[i + 1..]))
}
