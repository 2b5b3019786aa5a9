//! What is declared, in the order of the text, and by its name.
ghost use Rattle.std.specs.Prelude.{◌≡◌, Bool, [], ◌∷◌, ◌++◌, map, option_map, true, Some, OnOk, OnErr};
ghost use Rattle.std.specs.Option.{option_copied};
ghost use Rattle.c_types_rules.specs.Tables.{structure_in, alias_in, procedure_in};
ghost use Rattle.c_types_rules.specs.Items.{definitions, same_bool};
ghost use Rattle.c_types_names.specs.NameMap.{or_first};
ghost use Rattle.c_types_names.specs.NameTables.{first_procedure, procedure_that};
ghost use Rattle.c_types_names.specs.Seen.{structure_seen, alias_seen, procedure_seen};
ghost use Rattle.c_types_names.specs.StructFields.{fields_of};

use crate::declared::{Alias, Procedure, Structure};
use crate::name_map::NameMap;
use crate::struct_fields::StructFields;
use c_tree::Name;
use std::alloc::{AllocError, Global};
use std::marker::Model;

/// The first structure of a tag, and its fields.
#[derive(Drop)]
struct FirstStructure<'a> {
    structure: Structure<'a>,
    fields: StructFields<'a>,
}

/// Structures, and the first one of each tag.
#[derive(Drop)]
pub struct Structures<'a> {
    all: Vec<Structure<'a>>,
    first: NameMap<'a, FirstStructure<'a>>,
}

impl<'a> Model for Structures<'a> {
    ghost use Rattle.std.specs.Prelude.{◌≡◌, ℕ, List, map, option_map};
    ghost use Rattle.c_types_rules.specs.Tables.{Structure, structure_in};
    ghost use Rattle.c_types_names.specs.NameMap.{named};
    ghost use Rattle.c_types_names.specs.NameTables.{the_structure, its_fields};
    ghost use Rattle.c_types_names.specs.Seen.{structure_seen};
    ghost use Rattle.c_types_names.specs.StructFields.{fields_of};

    ghost Value = { List Structure };

    ghost view = { λ s. map structure_seen s.all.items };

    ghost invariant = { λ s. ((n : List ℕ)
        → option_map structure_seen (option_map the_structure (named s.first n)) ≡ structure_in (map structure_seen s.all.items) n)
        × ((n : List ℕ) → option_map its_fields (named s.first n)
        ≡ option_map fields_of (structure_in (map structure_seen s.all.items) n)) };
}

impl<'a> Structures<'a> {
    /// No structure.
    pub fn new(alloc: Global) -> Structures<'a>
        ensures { result ≡ [] }
    {
        Structures {
            all: Vec::new(alloc),
            first: NameMap::new(alloc),
        }
    }

    /// The structures, in the order of the text.
    pub fn as_slice(&self) -> &[Structure<'a>]
        ensures { map structure_seen result.now ≡ self.now }
    {
        self.all.as_slice()
    }

    /// The first structure of the tag.
    pub fn first(&self, tag: &Name) -> Option<Structure<'a>>
        ensures { option_map structure_seen result ≡ structure_in self.now tag.now }
    {
        match self.first.get(tag) {
            None => None,
            Some(found) => Some(found.structure),
        }
    }

    /// The fields of the first structure of the tag.
    pub fn fields(&self, tag: &Name) -> Option<&StructFields<'a>>
        ensures { option_copied result ≡ option_map fields_of (structure_in self.now tag.now) }
    {
        match self.first.get(tag) {
            None => None,
            Some(found) => Some(&found.fields),
        }
    }

    /// With one more structure.
    pub fn push(&mut self, one: Structure<'a>) -> Result<(), AllocError>
        ensures more { OnOk result (self.new ≡ self.old ++ structure_seen one.entry ∷ []) }
        ensures same { OnErr result (self.new ≡ self.old) }
    {
        let mut fields = StructFields::new(*self.all.allocator());
        fields.push_lines(one.lines.as_slice())?;
        self.all.reserve(1)?;
        let found = FirstStructure {
            structure: one,
            fields,
        };
        self.first.add_first(one.tag, found)?;
        self.all.push(one).unwrap();
        Ok(())
    }
}

/// Names of types, and the first one of each name.
#[derive(Drop)]
pub struct Aliases<'a> {
    all: Vec<Alias<'a>>,
    first: NameMap<'a, Alias<'a>>,
}

impl<'a> Model for Aliases<'a> {
    ghost use Rattle.std.specs.Prelude.{◌≡◌, ℕ, List, map, option_map};
    ghost use Rattle.c_types_rules.specs.Tables.{Alias, alias_in};
    ghost use Rattle.c_types_names.specs.NameMap.{named};
    ghost use Rattle.c_types_names.specs.Seen.{alias_seen};

    ghost Value = { List Alias };

    ghost view = { λ s. map alias_seen s.all.items };

    ghost invariant = { λ s. (n : List ℕ) → option_map alias_seen (named s.first n) ≡ alias_in (map alias_seen s.all.items) n };
}

impl<'a> Aliases<'a> {
    /// No name.
    pub fn new(alloc: Global) -> Aliases<'a>
        ensures { result ≡ [] }
    {
        Aliases {
            all: Vec::new(alloc),
            first: NameMap::new(alloc),
        }
    }

    /// The first of the names of types that is this name.
    pub fn first(&self, name: &Name) -> Option<Alias<'a>>
        ensures { option_map alias_seen result ≡ alias_in self.now name.now }
    {
        self.first.named(name)
    }

    /// With one more name.
    pub fn push(&mut self, one: Alias<'a>) -> Result<(), AllocError>
        ensures { OnOk result (self.new ≡ self.old ++ alias_seen one.entry ∷ []) }
    {
        self.all.reserve(1)?;
        self.first.add_first(one.name, one)?;
        self.all.push(one).unwrap();
        Ok(())
    }
}

/// The first procedures of a name: the first of all, the first definition, and the first declaration that is none.
#[derive(Clone, Copy)]
struct FirstProcedures<'a> {
    first: Procedure<'a>,
    defined: Option<Procedure<'a>>,
    declared: Option<Procedure<'a>>,
}

/// The first definition if `defines`, else the first declaration that is no definition.
fn procedure_that<'a>(defines: bool, found: Option<FirstProcedures<'a>>) -> Option<Procedure<'a>>
    ensures { result ≡ procedure_that defines found.entry }
{
    match found {
        None => None,
        Some(found) => if defines {
            found.defined
        } else {
            found.declared
        },
    }
}

/// What was found, or else the procedure, if it is wanted.
fn or_first<'a>(
    found: Option<Procedure<'a>>,
    wanted: bool,
    one: Procedure<'a>,
) -> Option<Procedure<'a>>
    ensures { result ≡ or_first found.entry wanted one.entry }
{
    match found {
        None => if wanted { Some(one) } else { None },
        Some(found) => Some(found),
    }
}

/// The first procedures of a name, with one more.
fn with_procedure<'a>(found: Option<FirstProcedures<'a>>, one: Procedure<'a>) -> FirstProcedures<'a>
    ensures first { Some result.first ≡ or_first (option_map first_procedure found.entry) true one.entry }
    ensures that { (defines : Bool) → procedure_that defines (Some result)
        ≡ or_first (procedure_that defines found.entry) (same_bool one.entry.defines defines) one.entry }
{
    FirstProcedures {
        first: match found {
            None => one,
            Some(found) => found.first,
        },
        defined: or_first(procedure_that(true, found), one.defines, one),
        declared: or_first(procedure_that(false, found), !one.defines, one),
    }
}

/// Procedures, and the first ones of each name.
#[derive(Drop)]
pub struct Procedures<'a> {
    all: Vec<Procedure<'a>>,
    first: NameMap<'a, FirstProcedures<'a>>,
}

impl<'a> Model for Procedures<'a> {
    ghost use Rattle.std.specs.Prelude.{◌≡◌, ℕ, Bool, List, map, option_map};
    ghost use Rattle.c_types_rules.specs.Tables.{Procedure, procedure_in};
    ghost use Rattle.c_types_rules.specs.Items.{definitions};
    ghost use Rattle.c_types_names.specs.NameMap.{named};
    ghost use Rattle.c_types_names.specs.NameTables.{first_procedure, procedure_that};
    ghost use Rattle.c_types_names.specs.Seen.{procedure_seen};

    ghost Value = { List Procedure };

    ghost view = { λ s. map procedure_seen s.all.items };

    ghost invariant = { λ s. ((n : List ℕ)
        → option_map procedure_seen (option_map first_procedure (named s.first n)) ≡ procedure_in (map procedure_seen s.all.items) n)
        × ((defines : Bool) (n : List ℕ) → option_map procedure_seen (procedure_that defines (named s.first n))
        ≡ procedure_in (definitions defines (map procedure_seen s.all.items)) n) };
}

impl<'a> Procedures<'a> {
    /// No procedure.
    pub fn new(alloc: Global) -> Procedures<'a>
        ensures { result ≡ [] }
    {
        Procedures {
            all: Vec::new(alloc),
            first: NameMap::new(alloc),
        }
    }

    /// The first procedure of the name.
    pub fn first(&self, name: &Name) -> Option<Procedure<'a>>
        ensures { option_map procedure_seen result ≡ procedure_in self.now name.now }
    {
        match self.first.named(name) {
            None => None,
            Some(found) => Some(found.first),
        }
    }

    /// The first definition of the procedure if `defines`, else its first declaration that is no definition.
    pub fn definition(&self, name: &Name, defines: bool) -> Option<Procedure<'a>>
        ensures { option_map procedure_seen result ≡ procedure_in (definitions defines self.now) name.now }
    {
        procedure_that(defines, self.first.named(name))
    }

    /// With one more procedure.
    pub fn push(&mut self, one: Procedure<'a>) -> Result<(), AllocError>
        ensures { OnOk result (self.new ≡ self.old ++ procedure_seen one.entry ∷ []) }
    {
        self.all.reserve(1)?;
        let name = &one.head.declarator.name.text;
        let found = with_procedure(self.first.named(name), one);
        self.first.set(name, found)?;
        self.all.push(one).unwrap();
        Ok(())
    }
}
