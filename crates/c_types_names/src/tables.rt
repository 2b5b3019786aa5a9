//! What the structures, the names of types and the procedures of a program are.
ghost use Rattle.std.specs.Prelude.{◌≡◌, [], ◌∷◌, option_map, OnOk, map};
ghost use Rattle.std.specs.Option.{option_copied};
ghost use Rattle.c_types_rules.specs.Tables.{
  no_tables,
  structure_in,
  alias_in,
  procedure_in,
  joined,
  declares,
  declared_by,
  tag_or,
};
ghost use Rattle.c_types_rules.specs.Items.{definitions};
ghost use Rattle.c_tree.specs.Syntax.{item_tree, ident_tree, fields_tree};
ghost use Rattle.c_types_names.specs.Seen.{structure_seen, alias_seen, procedure_seen};
ghost use Rattle.c_types_names.specs.StructFields.{fields_of};

use crate::declared::{Alias, Procedure, Structure};
use crate::name_tables::{Aliases, Procedures, Structures};
use crate::struct_fields::StructFields;
use c_tree::{FieldDecl, Ident, Item, Name};
use std::alloc::{AllocError, Global};
use std::marker::Model;

/// What is declared, in the order of the text.
pub struct Tables<'a> {
    structures: Structures<'a>,
    aliases: Aliases<'a>,
    procedures: Procedures<'a>,
}

impl<'a> Model for Tables<'a> {
    ghost use Rattle.c_types_rules.specs.Tables.{Tables};

    ghost Value = { Tables };

    ghost view = { λ t. record { structures = t.structures; aliases = t.aliases; procedures = t.procedures } };
}

// Written out, so that callers' proofs take the end of the tables as one call, and not one for each part of each map.
impl<'a> Drop for Tables<'a> {
    fn drop(self) {
        let Tables {
            structures: _structures,
            aliases: _aliases,
            procedures: _procedures,
        } = self;
    }
}

/// The tag of a structure under `typedef`.
pub fn tag_or<'a>(tag: &'a Option<Ident>, alias: &'a Ident) -> &'a Ident
    ensures { ident_tree result.now ≡ tag_or (option_map ident_tree tag.now) (ident_tree alias.now) }
{
    match tag {
        None => alias,
        Some(tag) => tag,
    }
}

impl<'a> Tables<'a> {
    /// Tables of nothing.
    pub fn new(alloc: Global) -> Tables<'a>
        ensures { result ≡ no_tables }
    {
        Tables {
            structures: Structures::new(alloc),
            aliases: Aliases::new(alloc),
            procedures: Procedures::new(alloc),
        }
    }

    /// The structures, in the order of the text.
    pub fn structures(&self) -> &[Structure<'a>]
        ensures { map structure_seen result.now ≡ self.now.structures }
    {
        self.structures.as_slice()
    }

    /// The first structure of the tag.
    pub fn structure(&self, tag: &Name) -> Option<Structure<'a>>
        ensures { option_map structure_seen result ≡ structure_in self.now.structures tag.now }
    {
        self.structures.first(tag)
    }

    /// The fields of the first structure of the tag.
    pub fn fields(&self, tag: &Name) -> Option<&StructFields<'a>>
        ensures { option_copied result ≡ option_map fields_of (structure_in self.now.structures tag.now) }
    {
        self.structures.fields(tag)
    }

    /// The first of the names of types that is this name.
    pub fn alias(&self, name: &Name) -> Option<Alias<'a>>
        ensures { option_map alias_seen result ≡ alias_in self.now.aliases name.now }
    {
        self.aliases.first(name)
    }

    /// The first procedure of the name.
    pub fn procedure(&self, name: &Name) -> Option<Procedure<'a>>
        ensures { option_map procedure_seen result ≡ procedure_in self.now.procedures name.now }
    {
        self.procedures.first(name)
    }

    /// The first definition of the procedure if `defines`, else its first declaration that is no definition.
    pub fn definition(&self, name: &Name, defines: bool) -> Option<Procedure<'a>>
        ensures { option_map procedure_seen result ≡ procedure_in (definitions defines self.now.procedures) name.now }
    {
        self.procedures.definition(name, defines)
    }

    /// With one more structure.
    fn push_structure(&mut self, tag: &'a Name, lines: &'a Vec<FieldDecl>) -> Result<(), AllocError>
        ensures { OnOk result (self.new ≡ joined self.old
            (record {
              structures = record { tag = tag.now; lines = map fields_tree lines.now.items } ∷ [];
              aliases = [];
              procedures = [];
            })) }
    {
        self.structures.push(Structure { tag, lines })
    }

    /// With what the item declares.
    #[tactic(auto, unfolding(crate::specs::Seen::procedure_seen))]
    pub fn declare(&mut self, item: &'a Item) -> Result<(), AllocError>
        ensures { OnOk result (self.new ≡ joined self.old (declares (item_tree item.now))) }
    {
        match item {
            Item::Struct { tag, fields, .. } => self.push_structure(&tag.text, fields)?,
            Item::TypedefStruct {
                tag,
                fields,
                alias,
                ..
            } => {
                let tag = &tag_or(tag, alias).text;
                self.push_structure(tag, fields)?;
                self.aliases.push(Alias {
                    name: &alias.text,
                    tag,
                })?;
            }
            Item::TypedefAlias { tag, alias, .. } => self.aliases.push(Alias {
                name: &alias.text,
                tag: &tag.text,
            })?,
            Item::Prototype(head) => self.procedures.push(Procedure {
                head,
                defines: false,
            })?,
            Item::Definition(head, _) => self.procedures.push(Procedure {
                head,
                defines: true,
            })?,
        }
        Ok(())
    }

    /// With what the items declare.
    pub fn declare_all(&mut self, items: &'a [Item]) -> Result<(), AllocError>
        ensures { OnOk result (self.new ≡ joined self.old (declared_by (map item_tree items.now))) }
    {
        for item in items {
            self.declare(item)?;
        }
        Ok(())
    }
}
