//! The fields of structures, in the order of the text, and by their names.
ghost use Rattle.std.specs.Prelude.{◌≡◌, [], ◌∷◌, ◌++◌, map, option_map, slice_get, OnOk};
ghost use Rattle.c_tree.specs.Syntax.{specifier_tree, declarator_tree, fields_tree};
ghost use Rattle.c_types_names.specs.StructFields.{
  declared_seen,
  declared_by_one,
  declared_in_line,
  declared_fields,
  place_named,
};

use crate::name_map::NameMap;
use c_tree::{Declarator, FieldDecl, Name, TypeSpecifier};
use std::alloc::{AllocError, Global};
use std::marker::Model;

/// A field: the specifier of its declaration, and its declarator.
#[derive(Clone, Copy)]
pub struct DeclaredField<'a> {
    pub specifier: &'a TypeSpecifier,
    pub declarator: &'a Declarator,
}

/// The fields of a structure, and the place of the first one of each name.
pub struct StructFields<'a> {
    all: Vec<DeclaredField<'a>>,
    places: NameMap<'a, usize>,
}

impl<'a> Model for StructFields<'a> {
    ghost use Rattle.std.specs.Prelude.{◌≡◌, ℕ, List, map};
    ghost use Rattle.c_types_names.specs.NameMap.{named};
    ghost use Rattle.c_types_names.specs.StructFields.{DeclaredTree, declared_seen, first_place};

    ghost Value = { List DeclaredTree };

    ghost view = { λ f. map declared_seen f.all.items };

    ghost invariant = { λ f. (n : List ℕ) → named f.places n ≡ first_place (map declared_seen f.all.items) n };
}

// Written out, so that callers' proofs take the end of the fields as one call.
impl<'a> Drop for StructFields<'a> {
    fn drop(self) {
        let StructFields {
            all: _all,
            places: _places,
        } = self;
    }
}

impl<'a> StructFields<'a> {
    /// No field.
    pub fn new(alloc: Global) -> StructFields<'a>
        ensures { result ≡ [] }
    {
        StructFields {
            all: Vec::new(alloc),
            places: NameMap::new(alloc),
        }
    }

    /// The fields, in the order of the text.
    pub fn as_slice(&self) -> &[DeclaredField<'a>]
        ensures { map declared_seen result.now ≡ self.now }
    {
        self.all.as_slice()
    }

    /// The field at the place, if there is one.
    pub fn at(&self, place: usize) -> Option<DeclaredField<'a>>
        ensures { option_map declared_seen result ≡ slice_get self.now place }
    {
        self.all.as_slice().get(place).copied()
    }

    /// The place of the first field of the name, or how many fields there are. Among n fields it takes O(log n) comparisons of names.
    pub fn place(&self, name: &Name) -> usize
        ensures { result ≡ place_named self.now name.now }
    {
        match self.places.named(name) {
            None => self.all.len(),
            Some(place) => place,
        }
    }

    /// With one more field.
    fn push(&mut self, one: DeclaredField<'a>) -> Result<(), AllocError>
        ensures { OnOk result (self.new ≡ self.old ++ declared_seen one.entry ∷ []) }
    {
        self.all.reserve(1)?;
        let place = self.all.len();
        self.places.add_first(&one.declarator.name.text, place)?;
        self.all.push(one).unwrap();
        Ok(())
    }

    /// With the field of a declarator.
    fn push_declarator(
        &mut self,
        specifier: &'a TypeSpecifier,
        declarator: &'a Declarator,
    ) -> Result<(), AllocError>
        ensures { OnOk result (self.new
            ≡ self.old ++ declared_by_one (specifier_tree specifier.now) (declarator_tree declarator.now) ∷ []) }
    {
        self.push(DeclaredField {
            specifier,
            declarator,
        })
    }

    /// With the fields in a declaration.
    #[tactic(auto, using(crate::proofs::Appending::appending))]
    fn push_line(&mut self, line: &'a FieldDecl) -> Result<(), AllocError>
        ensures { OnOk result (self.new ≡ self.old ++ declared_in_line (fields_tree line.now)) }
    {
        for one in line.declarators.iter() {
            self.push_declarator(&line.specifier, one)?;
        }
        Ok(())
    }

    /// With the fields of a structure.
    #[tactic(auto, using(crate::proofs::Appending::appending))]
    pub fn push_lines(&mut self, lines: &'a [FieldDecl]) -> Result<(), AllocError>
        ensures { OnOk result (self.new ≡ self.old ++ declared_fields (map fields_tree lines.now)) }
    {
        for line in lines {
            self.push_line(line)?;
        }
        Ok(())
    }
}
