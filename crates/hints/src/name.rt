//! The names of files, as a shell takes them.

/// The name, where a shell takes it as it is and it is no option; otherwise a word in its place.
pub(crate) fn shell_name<'a>(name: Option<&'a str>, word: &'a str) -> &'a str {
    match name {
        Some(name) if is_plain(name) => name,
        _ => word,
    }
}

fn is_plain(name: &str) -> bool {
    let bytes = name.as_bytes();
    !bytes.is_empty() && !bytes.starts_with(b"-") && bytes.iter().all(is_plain_byte)
}

fn is_plain_byte(byte: &u8) -> bool {
    byte.is_ascii_alphanumeric() || b"_./+=,@%:-".contains(byte)
}
