//! What hides a text from a reader of bytes.

/// What hides a text from a reader of bytes, and a standard tool undoes.
#[derive(Clone, Copy, Debug, PartialEq, Eq)]
pub enum Encoding {
    Gzip,
    Xz,
    Bzip2,
    Zstd,
    /// A byte order mark before UTF-8.
    Utf8Mark,
    Utf16,
}

impl Encoding {
    pub(crate) fn sentence(self) -> &'static str {
        match self {
            Encoding::Gzip => "this is compressed by gzip",
            Encoding::Xz => "this is compressed by xz",
            Encoding::Bzip2 => "this is compressed by bzip2",
            Encoding::Zstd => "this is compressed by zstd",
            Encoding::Utf8Mark => "this begins with a byte order mark",
            Encoding::Utf16 => "this is UTF-16",
        }
    }

    /// The command that undoes it, before the file's name.
    pub(crate) fn filter(self) -> &'static str {
        match self {
            Encoding::Gzip => "zcat ",
            Encoding::Xz => "xzcat ",
            Encoding::Bzip2 => "bzcat ",
            Encoding::Zstd => "zstdcat ",
            Encoding::Utf8Mark => "tail -c +4 ",
            Encoding::Utf16 => "iconv -f UTF-16 -t UTF-8 ",
        }
    }

    /// Whether it is an encoding of text alone.
    pub(crate) fn is_of_text(self) -> bool {
        matches!(self, Encoding::Utf8Mark | Encoding::Utf16)
    }
}
