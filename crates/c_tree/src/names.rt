//! Names, types and what declares them (C11 6.7).
ghost use Rattle.std.specs.Prelude.{◌≡◌, length};
ghost use Rattle.c_tree.specs.NonEmpty.{left};
ghost use Rattle.c_tree.specs.Params.{param_items};

use crate::non_empty::{Iter, NonEmpty};
use c_grammar::tokens::Place;
use shape_data::Name;

/// A name, where it stands (C11 6.4.2.1).
#[derive(Drop)]
pub struct Ident {
    pub place: Place,
    pub text: Name,
}

/// A type specifier (C11 6.7.2).
#[derive(Drop)]
pub enum TypeSpecifier {
    /// `int`.
    Int(Place),
    /// `void`.
    Void(Place),
    /// `struct` and the tag.
    Struct(Place, Ident),
    /// The name of a type, which a `typedef` declares.
    Alias(Ident),
}

/// Stars and a name (C11 6.7.6).
#[derive(Drop)]
pub struct Declarator {
    pub stars: usize,
    pub name: Ident,
}

/// The fields of one declaration: one or more declarators, with commas between them (C11 6.7.2.1).
#[derive(Drop)]
pub struct FieldDecl {
    pub specifier: TypeSpecifier,
    pub declarators: NonEmpty<Declarator>,
}

/// A parameter, which a prototype may leave without a name (C11 6.7.6.3).
#[derive(Drop)]
pub struct Param {
    pub specifier: TypeSpecifier,
    pub stars: usize,
    pub name: Option<Ident>,
}

/// What stands between the parentheses of a function's declarator (C11 6.7.6.3).
#[derive(Drop)]
pub enum Params {
    /// Nothing.
    Empty,
    /// `void` alone, which says that there is no parameter.
    Void(Place),
    /// One or more parameters, with commas between them.
    Listed(NonEmpty<Param>),
}

impl Params {
    /// Each parameter, in the order of the text.
    pub fn iter(&self) -> Iter<'_, Param>
        ensures { left result ≡ param_items self.now }
    {
        match self {
            Params::Empty => {}
            Params::Void(_) => {}
            Params::Listed(listed) => return listed.iter(),
        }
        Iter::none()
    }

    /// How many parameters there are.
    pub fn len(&self) -> usize
        ensures { result ≡ length (param_items self.now) }
    {
        match self {
            Params::Empty => 0,
            Params::Void(_) => 0,
            Params::Listed(listed) => listed.others.len() + 1,
        }
    }
}

/// What a function is called with, and what it answers (C11 6.7.6.3).
#[derive(Drop)]
pub struct Head {
    pub specifier: TypeSpecifier,
    pub declarator: Declarator,
    pub params: Params,
}
