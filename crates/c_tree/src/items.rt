//! What a file declares (C11 6.9).
use crate::names::{FieldDecl, Head, Ident};
use crate::stmts::Block;
use c_grammar::tokens::Place;

/// A declaration or a definition of the file (C11 6.9).
#[derive(Drop)]
pub enum Item {
    /// A structure and its fields (C11 6.7.2.1).
    Struct {
        place: Place,
        tag: Ident,
        fields: Vec<FieldDecl>,
    },
    /// A structure, with its tag, if any, and a name for its type (C11 6.7.8).
    TypedefStruct {
        place: Place,
        tag: Option<Ident>,
        fields: Vec<FieldDecl>,
        alias: Ident,
    },
    /// A name for the type of a structure (C11 6.7.8).
    TypedefAlias {
        place: Place,
        tag: Ident,
        alias: Ident,
    },
    /// A function that is declared (C11 6.7.6.3).
    Prototype(Head),
    /// A function with its body (C11 6.9.1).
    Definition(Head, Block),
}

/// A file: a translation unit (C11 6.9).
#[derive(Drop)]
pub struct Unit {
    pub items: Vec<Item>,
}
