//! Why there is no tree.
use c_grammar::tokens::ReadFault;

/// Why words are read as no tree. The codes are 111, a word that cannot stand where it stands, and 112, a word that opens
/// a level of nesting too many.
pub type SyntaxFault = ReadFault;
