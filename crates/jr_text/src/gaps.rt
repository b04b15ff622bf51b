// What of a gap belongs to the declaration behind it.
ghost use Rattle.std.specs.Prelude.{◌≤◌, length};

// Where a byte of a gap stands.
#[derive(Clone, Copy)]
enum Within {
    Blanks,
    /// Behind the first `/` of a comment.
    Slash,
    Line,
    Block,
    /// In a block comment, behind a `*`.
    Star,
}

fn behind_slash(byte: u8) -> Within {
    match byte {
        b'/' => Within::Line,
        b'*' => Within::Block,
        _ => Within::Blanks,
    }
}

fn behind_star(byte: u8) -> Within {
    match byte {
        b'/' => Within::Blanks,
        b'*' => Within::Star,
        _ => Within::Block,
    }
}

impl Within {
    // Where the byte behind this one stands.
    fn behind(self, byte: u8) -> Within {
        match self {
            Within::Blanks => {
                if byte == b'/' {
                    Within::Slash
                } else {
                    Within::Blanks
                }
            }
            Within::Slash => behind_slash(byte),
            Within::Line => {
                if byte == b'\n' || byte == b'\r' {
                    Within::Blanks
                } else {
                    Within::Line
                }
            }
            Within::Block => {
                if byte == b'*' {
                    Within::Star
                } else {
                    Within::Block
                }
            }
            Within::Star => behind_star(byte),
        }
    }
}

/// How many bytes of the gap before a declaration stand before its lead. The lead begins at the first LF outside block comments, and just behind that
/// LF where it ends a line comment; one behind a CR ends none, since the CR does (JLS 3.4, 3.7). Where there is no such LF the lead is empty, and
/// these are all bytes of the gap.
pub fn lead(gap: &[u8]) -> usize
    ensures { result ≤ length gap.now }
{
    let mut within = Within::Blanks;
    for at in 0..gap.len() {
        let byte = gap[at];
        if byte == b'\n' {
            match within {
                Within::Blanks => return at,
                Within::Line => return at + 1,
                _ => (),
            }
        }
        within = within.behind(byte);
    }
    gap.len()
}
