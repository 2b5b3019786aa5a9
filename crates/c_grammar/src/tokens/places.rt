//! Places in a text, and refusals at them.
ghost use Rattle.std.specs.Prelude.{◌≡◌, ◌+◌, ◌^◌, ◌<◌, ◌≤◌, length};
ghost use Rattle.c_grammar.specs.Tokens.Places.{after, place_after, refusal};

/// A line and a column, both counted from 1, columns in bytes.
#[derive(Clone, Copy, Debug)]
pub struct Place {
    pub line: u32,
    pub column: u32,
}

/// Where a text breaks a rule, and which: lines and columns count from 1, columns in bytes.
#[derive(Clone, Copy, Debug)]
pub struct Refusal {
    pub line: u32,
    pub column: u32,
    pub code: u16,
}

impl Place {
    /// The place behind the byte.
    fn after(self, byte: u8) -> Place
        requires line { self.line + 1 < 2 ^ 32 }
        requires column { self.column + 1 < 2 ^ 32 }
        ensures { result ≡ after self byte }
    {
        if byte == b'\n' {
            Place {
                line: self.line + 1,
                column: 1,
            }
        } else {
            Place {
                line: self.line,
                column: self.column + 1,
            }
        }
    }

    /// The place behind the bytes.
    pub fn after_all(self, bytes: &[u8]) -> Place
        requires line { self.line + length bytes.now < 2 ^ 32 }
        requires column { self.column + length bytes.now < 2 ^ 32 }
        ensures value { result ≡ place_after self bytes.now }
        ensures line { result.line ≤ self.line + length bytes.now }
        ensures column { result.column ≤ self.column + length bytes.now }
    {
        let mut place = self;
        for byte in bytes {
            place = place.after(*byte);
        }
        place
    }

    /// A refusal at the place.
    pub fn refusal(self, code: u16) -> Refusal
        ensures { result ≡ refusal self code }
    {
        Refusal {
            line: self.line,
            column: self.column,
            code,
        }
    }
}
