//! What a file is, by its first bytes.

/// What a file looks like.
#[derive(Clone, Copy, Debug, PartialEq, Eq)]
pub enum Look {
    Configuration,
    FrameList,
    SubmissionList,
    Recording,
    Packed,
}

impl Look {
    /// It in words.
    pub fn name(self) -> &'static str {
        match self {
            Look::Configuration => "a configuration",
            Look::FrameList => "a frame list",
            Look::SubmissionList => "a submission list",
            Look::Recording => "a recording",
            Look::Packed => "a packed file",
        }
    }
}

/// How recordings begin: a pcap in either order of bytes, with stamps in us or in ns; a pcapng.
const RECORDINGS: [[u8; 4]; 5] = [
    [0xa1, 0xb2, 0xc3, 0xd4],
    [0xd4, 0xc3, 0xb2, 0xa1],
    [0xa1, 0xb2, 0x3c, 0x4d],
    [0x4d, 0x3c, 0xb2, 0xa1],
    [0x0a, 0x0d, 0x0d, 0x0a],
];

/// How packed files begin: by gzip, zstd, xz, lz4 and bzip2.
const PACKINGS: [&[u8]; 5] = [
    &[0x1f, 0x8b],
    &[0x28, 0xb5, 0x2f, 0xfd],
    &[0xfd, 0x37, 0x7a, 0x58],
    &[0x04, 0x22, 0x4d, 0x18],
    b"BZh",
];

/// Whether the word is a number in decimal digits.
pub(crate) fn is_number(word: &str) -> bool {
    !word.is_empty() && word.bytes().all(|byte| byte.is_ascii_digit())
}

/// What a line of text is of, if that can be told.
fn look_of_line(line: &str) -> Option<Look> {
    let mut words = line.split(' ');
    let (first, second) = (words.next()?, words.next().unwrap_or(""));
    match first {
        "F" | "B" | "R" if is_number(second) => Some(Look::FrameList),
        _ if is_number(first) && is_number(second) => Some(Look::SubmissionList),
        _ if line.starts_with('[') || line.contains('=') => Some(Look::Configuration),
        _ => None,
    }
}

/// Whether a line says nothing: it is empty or a remark.
fn is_passed_over(line: &str) -> bool {
    line.is_empty() || line.starts_with('#')
}

/// What a file looks like that begins with these bytes; None where that can't be told.
pub fn look_of(bytes: &[u8]) -> Option<Look> {
    if RECORDINGS.iter().any(|begin| bytes.starts_with(begin)) {
        return Some(Look::Recording);
    }
    if PACKINGS.iter().any(|begin| bytes.starts_with(begin)) {
        return Some(Look::Packed);
    }
    for line in bytes.split(|byte| *byte == b'\n') {
        let line = std::str::from_utf8(line).ok()?.trim();
        if !is_passed_over(line) {
            return look_of_line(line);
        }
    }
    None
}
