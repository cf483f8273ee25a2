//! Numbers of lines.

ghost use Rattle.std.specs.Prelude.{◌≡◌, ◌≤◌, ◌+◌, length};
ghost use Rattle.trace_check.specs.Findings.{line_ends, common, differing_line};

/// How many lines end.
pub(crate) fn line_ends(bytes: &[u8]) -> u64
    ensures value { result ≡ line_ends bytes.now }
    ensures bound { result ≤ length bytes.now }
{
    ends_in(bytes) as u64
}

/// How many bytes at the front are the same.
fn common_len(text: &[u8], other: &[u8]) -> usize
    ensures value { result ≡ length (common text.now other.now) }
    ensures bound { result ≤ length text.now }
{
    let mut len = 0;
    while len < text.len() && len < other.len() && text[len] == other[len] {
        len += 1;
    }
    len
}

/// The same in the type of lengths, which a count of bytes can't pass.
fn ends_in(bytes: &[u8]) -> usize
    ensures value { result ≡ line_ends bytes.now }
    ensures bound { result ≤ length bytes.now }
{
    let mut ends = 0;
    for byte in bytes {
        if *byte == b'\n' {
            ends += 1;
        }
    }
    ends
}

/// The number of the first line in which two texts differ.
pub(crate) fn differing_line(text: &[u8], other: &[u8]) -> u64
    ensures { result ≡ differing_line text.now other.now }
{
    line_ends(&text[..common_len(text, other)]) + 1
}
