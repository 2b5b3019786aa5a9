//! What a program declares, as references into its trees.
use c_tree::{FieldDecl, Head, Name};

/// A structure that is defined.
#[derive(Clone, Copy)]
pub struct Structure<'a> {
    pub tag: &'a Name,
    pub lines: &'a Vec<FieldDecl>,
}

/// A name that `typedef` gives to a structure.
#[derive(Clone, Copy)]
pub struct Alias<'a> {
    pub name: &'a Name,
    pub tag: &'a Name,
}

/// A procedure that is declared, and whether it is defined there.
#[derive(Clone, Copy)]
pub struct Procedure<'a> {
    pub head: &'a Head,
    pub defines: bool,
}
