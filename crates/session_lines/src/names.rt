//! Tests of the names that a line has: of files and of procedures.
ghost use Rattle.std.specs.Prelude.{◌≡◌, ◌↔◌, IsTrue};
ghost use Rattle.std.specs.List.{list_all};
ghost use Rattle.session_lines.specs.Lines.{IsFileName, IsProcName, is_file_byte};

use shape_data::name::Name;
use shape_data::names::is_c_name;

/// Whether the byte may stand in a file's name.
fn is_file_byte(byte: u8) -> bool
    ensures { result ≡ is_file_byte byte }
{
    byte.is_ascii_alphanumeric() || matches!(byte, b'.' | b'_' | b'-' | b'/')
}

/// Whether each byte may stand in a file's name.
fn are_file_bytes(bytes: &[u8]) -> bool
    ensures { result ≡ list_all is_file_byte bytes.now }
{
    bytes.iter().all(|byte| is_file_byte(*byte))
}

/// Whether the bytes are a file's name: 1 to 64 letters, digits, `.`, `_`, `-` and `/`.
pub fn is_file_name(bytes: &[u8]) -> bool
    ensures { IsTrue result ↔ IsFileName bytes.now }
{
    Name::is_name(bytes) && are_file_bytes(bytes)
}

/// Whether the bytes are the name of a procedure: a C name of at most 64 bytes.
pub fn is_proc_name(bytes: &[u8]) -> bool
    ensures { IsTrue result ↔ IsProcName bytes.now }
{
    bytes.len() <= 64 && is_c_name(bytes)
}
