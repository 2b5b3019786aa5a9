//! The classes of words: what the grammar tells apart.

/// The class of a word.
#[derive(Clone, Copy, Debug, PartialEq, Eq)]
pub enum Class {
    /// The end of the text.
    End,
    /// A name.
    Name,
    /// A number.
    Number,
    /// `(` that is no `Cast`.
    Open,
    /// `(` before `int`, `void` or `struct`, or before a name, a star and `)`: where an operand stands, it begins a cast
    /// (C11 6.5.4).
    Cast,
    /// `int`.
    Int,
    /// `void`.
    Void,
    /// `struct`.
    Struct,
    /// `typedef`.
    Typedef,
    /// `if`.
    If,
    /// `else`.
    Else,
    /// `while`.
    While,
    /// `for`.
    For,
    /// `do`.
    Do,
    /// `break`.
    Break,
    /// `continue`.
    Continue,
    /// `return`.
    Return,
    /// `sizeof`.
    Sizeof,
    /// `NULL`.
    Null,
    /// `malloc`.
    Malloc,
    /// `free`.
    Free,
    /// A reserved word that no rule of the grammar uses.
    OtherKey,
    /// `)`.
    Close,
    /// `{`.
    OpenBrace,
    /// `}`.
    CloseBrace,
    /// `;`.
    Semicolon,
    /// `,`.
    Comma,
    /// `->`.
    Arrow,
    /// `=`.
    Set,
    /// `+=`.
    AddTo,
    /// `-=`.
    SubtractFrom,
    /// `*=`.
    MultiplyBy,
    /// `++`.
    Increment,
    /// `--`.
    Decrement,
    /// `==`.
    Equal,
    /// `!=`.
    NotEqual,
    /// `<`.
    Less,
    /// `<=`.
    LessEqual,
    /// `>`.
    Greater,
    /// `>=`.
    GreaterEqual,
    /// `+`.
    Plus,
    /// `-`.
    Minus,
    /// `*`.
    Star,
    /// `!`.
    Not,
    /// `&&`.
    And,
    /// `||`.
    Or,
}
