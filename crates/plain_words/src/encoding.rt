//! Files that aren't written in UTF-8.

/// Whether a file begins with the byte order mark of UTF-16.
pub(crate) fn is_utf16(file: &[u8]) -> bool {
    file.starts_with(&[0xFF, 0xFE]) || file.starts_with(&[0xFE, 0xFF])
}

/// The first byte of a file that isn't part of a character of UTF-8, where it isn't written in it.
pub(crate) fn stray_byte(file: &[u8]) -> Option<u8> {
    match str::from_utf8(file) {
        Ok(_) => None,
        Err(error) => file.get(error.valid_up_to()).copied(),
    }
}
