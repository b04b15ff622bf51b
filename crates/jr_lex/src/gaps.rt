// White space and comments (JLS 3.4, 3.6, 3.7).
ghost use Rattle.std.specs.Prelude.{◌≡◌, ◌<◌, ◌≤◌, ℕ, true, false, length, MatchOption, slice_index};
ghost use Rattle.jr_base.specs.Gaps.{is_blank, is_line_end, opens_line_comment, opens_block_comment, closes_comment, IsLineComment, IsBlockComment};

pub fn is_blank(b: u8) -> bool
    ensures { result ≡ is_blank b }
{
    b == b' ' || b == b'\t' || b == b'\x0c' || is_line_end(b)
}

pub fn is_line_end(b: u8) -> bool
    ensures { result ≡ is_line_end b }
{
    b == b'\n' || b == b'\r'
}

pub fn opens_line_comment(text: &[u8]) -> bool
    ensures { result ≡ opens_line_comment text.now }
{
    text.len() > 1 && text[0] == b'/' && text[1] == b'/'
}

pub fn opens_block_comment(text: &[u8]) -> bool
    ensures { result ≡ opens_block_comment text.now }
{
    text.len() > 1 && text[0] == b'/' && text[1] == b'*'
}

/// The length of the line comment that the text begins with.
pub fn line_comment(text: &[u8]) -> usize
    requires { opens_line_comment text.now ≡ true }
    ensures { IsLineComment text.now result }
{
    let mut end = 2;
    while end < text.len() && !is_line_end(text[end]) {
        end += 1;
    }
    end
}

/// The length of the block comment that the text begins with, and None where it is not closed.
pub fn block_comment(text: &[u8]) -> Option<usize>
    requires { opens_block_comment text.now ≡ true }
    ensures { MatchOption result
        ((k : ℕ) → 2 ≤ k → closes_comment text.now k ≡ false)
        (λ len. IsBlockComment text.now len) }
{
    let mut at = 2;
    while at + 1 < text.len() {
        if text[at] == b'*' && text[at + 1] == b'/' {
            return Some(at + 2);
        }
        at += 1;
    }
    None
}
