// Bytes behind their length.
ghost use Rattle.std.specs.Prelude.{◌≡◌, Some, None, IfSome, IfNone};
ghost use Rattle.descriptors.specs.Lengths.{split_length, behind_length};

/// The bytes behind a length of 8 bits, and those that follow them, or `None` exactly where the length is missing or runs past the
/// end.
pub fn split_length(bytes: &[u8]) -> Option<(&[u8], &[u8])>
    ensures some { IfSome result (λ parts. split_length bytes.now ≡ Some (parts.0.now, parts.1.now)) }
    ensures none { IfNone result (split_length bytes.now ≡ None) }
{
    let [length, behind @ ..] = bytes else {
        return None;
    };
    let length = *length as usize;
    if behind.len() < length {
        return None;
    }
    Some(behind.split_at(length))
}

/// The bytes behind a length of 8 bits, or `None` exactly where they are not just as many as it tells, or it is missing.
pub fn behind_length(bytes: &[u8]) -> Option<&[u8]>
    ensures some { IfSome result (λ behind. behind_length bytes.now ≡ Some behind.now) }
    ensures none { IfNone result (behind_length bytes.now ≡ None) }
{
    let [length, behind @ ..] = bytes else {
        return None;
    };
    if behind.len() != *length as usize {
        return None;
    }
    Some(behind)
}
