//! A program that keeps the typing rules, and why there is none.
ghost use Rattle.c_types.specs.Typing.{IsTyped, files_of};

use crate::fault::UnitsFault;
use c_tree::Unit;
use c_types_names::tables::Tables;
use shape_data::Row;
use shape_data::program::StructDef;

/// A program that keeps the typing rules: its files, which are lent, what is declared in them, and its structures in the order of their
/// first definitions. That they are those is part of the type. The types of its expressions are found anew where they are asked for
/// (`kinds_of`; that of one by `c_types_exprs::exprs::kind_of`).
#[derive(Drop)]
pub struct Typed<'a> {
    pub units: &'a [Unit],
    pub tables: Tables<'a>,
    pub structs: Row<StructDef>,
    pub ghost typed: { IsTyped (files_of units.now) tables structs },
}

/// Why a program is not well typed: the first refusal in the order of the text. The codes are 121, a name that is not declared; 122,
/// types that clash; 123, a second definition; 124, a wrong number of arguments; 125, a structure that is repeated and differs;
/// and 126, a construct that the subset leaves out.
pub type TypeFault = UnitsFault;
