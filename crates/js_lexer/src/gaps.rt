//! White space, line ends and comments, and the count of lines.
ghost use Rattle.std.specs.Prelude.{◌≡◌, ◌+◌, ◌≤◌, length, IsTrue, IfSome};
ghost use Rattle.js_lexer.specs.declared.limits.TheConstants.{MOST_BYTES};
ghost use Rattle.js_lexer.specs.Gaps.{begins_separator, blank_size, line_end_size, ends_line, line_ends, line_of, size_of_line, size_to_close};

/// Whether U+2028 or U+2029 stands in front.
pub(crate) fn is_separator(bytes: &[u8]) -> bool
    ensures test { result ≡ begins_separator bytes.now }
    ensures room { IsTrue result → 3 ≤ length bytes.now }
{
    bytes.starts_with(b"\xe2\x80\xa8") || bytes.starts_with(b"\xe2\x80\xa9")
}

/// How many bytes of white space stand in front, up to one character.
pub(crate) fn blank_front(bytes: &[u8]) -> usize
    ensures size { result ≡ blank_size bytes.now }
    ensures within { result ≤ length bytes.now }
{
    if bytes.starts_with(b"\t")
        || bytes.starts_with(b"\x0b")
        || bytes.starts_with(b"\x0c")
        || bytes.starts_with(b" ")
    {
        return 1;
    }
    if bytes.starts_with(b"\xc2\xa0") {
        return 2;
    }
    if bytes.starts_with(b"\xef\xbb\xbf") {
        return 3;
    }
    0
}

/// How many bytes the line end in front has, or 0.
pub(crate) fn line_end_front(bytes: &[u8]) -> usize
    ensures size { result ≡ line_end_size bytes.now }
    ensures within { result ≤ length bytes.now }
{
    if bytes.starts_with(b"\r\n") {
        return 2;
    }
    if bytes.starts_with(b"\n") || bytes.starts_with(b"\r") {
        return 1;
    }
    if is_separator(bytes) {
        return 3;
    }
    0
}

fn is_line_ended(bytes: &[u8]) -> bool
    ensures { result ≡ ends_line bytes.now }
{
    bytes.starts_with(b"\n")
        || bytes.starts_with(b"\r") && !bytes.starts_with(b"\r\n")
        || is_separator(bytes)
}

/// How many lines end in the first n bytes.
#[tactic(auto, using(crate::proofs::Lines::line_ends_step, crate::proofs::Lines::line_ends_none))]
pub(crate) fn line_ends_in(bytes: &[u8], n: usize) -> u32
    requires { length bytes.now ≤ MOST_BYTES }
    ensures ends { result ≡ line_ends n bytes.now }
    ensures few { result ≤ n }
{
    let mut rest = bytes;
    let mut left = n;
    let mut ends: u32 = 0;
    'more: while left > 0 {
        let Some((_, behind)) = rest.split_first() else {
            return ends;
        };
        if is_line_ended(rest) {
            ends += 1;
        }
        rest = behind;
        left -= 1;
    }
    ends
}

/// The line of a byte's place, from 1.
///
/// A line end that begins before the place counts; CR LF counts at its LF.
pub fn line_at(bytes: &[u8], place: u32) -> u32
    requires size { length bytes.now ≤ MOST_BYTES }
    requires within { place ≤ length bytes.now }
    ensures { result ≡ line_of bytes.now place }
{
    1 + line_ends_in(bytes, place as usize)
}

/// How many bytes stand before the first line end.
#[tactic(auto, using(crate::proofs::Lines::size_of_line_step))]
pub(crate) fn line_front(bytes: &[u8]) -> usize
    ensures size { result ≡ size_of_line bytes.now }
    ensures within { result ≤ length bytes.now }
{
    let mut rest = bytes;
    let mut size = 0;
    'more: while let Some((_, behind)) = rest.split_first() {
        if line_end_front(rest) > 0 {
            return size;
        }
        rest = behind;
        size += 1;
    }
    size
}

/// How many bytes there are with the first `*/`.
#[tactic(auto, using(crate::proofs::Lines::close_here, crate::proofs::Lines::close_step, crate::proofs::Lines::close_none))]
pub(crate) fn close_front(bytes: &[u8]) -> Option<usize>
    ensures size { result ≡ size_to_close bytes.now }
    ensures within { IfSome result (λ n. n ≤ length bytes.now) }
{
    let mut rest = bytes;
    let mut size = 0;
    'more: while let Some((_, behind)) = rest.split_first() {
        if rest.starts_with(b"*/") {
            return Some(size + 2);
        }
        rest = behind;
        size += 1;
    }
    None
}
