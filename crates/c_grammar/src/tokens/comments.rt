//! Where comments end.
ghost use Rattle.std.specs.Prelude.{◌≡◌, ◌≤◌, false, IfSome, length};
ghost use Rattle.c_grammar.specs.Tokens.Scan.{is_star, behind, line_end, block_end};
ghost use Rattle.c_grammar.specs.declared.tokens.comments.Behind.TheVariants.{Other};

/// What was passed last inside a `/*` comment.
#[derive(Clone, Copy, Debug)]
pub enum Behind {
    Other,
    Star,
    /// A star, and a backslash that joins the next line to this one.
    Join,
}

impl Behind {
    /// Whether a star was passed last, joined lines aside.
    fn is_star(self) -> bool
        ensures { result ≡ is_star self }
    {
        match self {
            Behind::Star => true,
            Behind::Join => false,
            Behind::Other => false,
        }
    }

    /// What was passed last, one byte later.
    fn then(self, byte: u8) -> Behind
        ensures { result ≡ behind self byte }
    {
        if byte == b'*' {
            return Behind::Star;
        }
        match self {
            Behind::Star => {
                if byte == b'\\' {
                    Behind::Join
                } else {
                    Behind::Other
                }
            }
            Behind::Join => {
                if byte == b'\n' {
                    Behind::Star
                } else if byte == b'\r' {
                    Behind::Join
                } else {
                    Behind::Other
                }
            }
            Behind::Other => Behind::Other,
        }
    }
}

/// How many bytes of a `//` comment these begin with.
pub fn line_len(bytes: &[u8]) -> usize
    ensures value { result ≡ line_end 0 false bytes.now }
    ensures within { result ≤ length bytes.now }
{
    let mut joined = false;
    for (place, byte) in bytes.iter().enumerate() {
        if *byte == b'\n' && !joined {
            return place;
        }
        joined = *byte == b'\\' || (joined && *byte == b'\r');
    }
    bytes.len()
}

/// How many bytes of a `/*` comment these begin with, its end included.
pub fn block_len(bytes: &[u8]) -> Option<usize>
    ensures value { result ≡ block_end 0 Other bytes.now }
    ensures within { IfSome result (λ n. n ≤ length bytes.now) }
{
    let mut behind = Behind::Other;
    for (place, byte) in bytes.iter().enumerate() {
        if *byte == b'/' && behind.is_star() {
            return Some(place + 1);
        }
        behind = behind.then(*byte);
    }
    None
}
