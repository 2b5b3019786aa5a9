//! The codes of what the typing rules refuse.

/// A name that is not declared.
pub const UNDECLARED: u16 = 121;

/// Types that clash.
pub const CLASH: u16 = 122;

/// A second definition.
pub const SECOND: u16 = 123;

/// A wrong number of arguments.
pub const ARGUMENTS: u16 = 124;

/// A structure that is repeated and differs.
pub const DIFFERS: u16 = 125;

/// A construct that the subset leaves out.
pub const LEFT_OUT: u16 = 126;
