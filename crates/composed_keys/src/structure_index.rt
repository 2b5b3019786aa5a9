//! The structures of a program, which are looked up by name in time in proportion to a logarithm of their number.
ghost use Rattle.std.specs.Prelude.{◌≡◌};
ghost use Rattle.component_keys.specs.Structures.{struct_number};
ghost use Rattle.composed_keys.specs.StructureOrder.{AreInOrder};

use call_components::order::first_named;
use shape_data::Name;
use shape_data::program::StructDef;
use std::marker::Model;

/// Structures with their names, and their places in order of the names. Contracts see the structures.
#[derive(Drop)]
pub struct StructureIndex<'a> {
    structs: &'a [StructDef],
    names: &'a [Name],
    order: &'a [u32],
}

impl<'a> Model for StructureIndex<'a> {
    ghost use Rattle.std.specs.Prelude.{List};
    ghost use Rattle.shape_data.specs.declared.program.StructDef.{StructDef};
    ghost use Rattle.composed_keys.specs.StructureOrder.{AreInOrder};

    ghost Value = { List StructDef };

    ghost view = { λ index. index.structs.now };

    ghost invariant = { λ index. AreInOrder index.structs.now index.names.now index.order.now };
}

impl<'a> StructureIndex<'a> {
    /// Structures with these names, which stand in this order.
    pub fn new(structs: &'a [StructDef], names: &'a [Name], order: &'a [u32]) -> StructureIndex<'a>
        requires { AreInOrder structs.now names.now order.now }
        ensures { result ≡ structs.now }
    {
        StructureIndex {
            structs,
            names,
            order,
        }
    }

    /// The structures.
    pub fn as_slice(&self) -> &'a [StructDef]
        ensures { result.now ≡ self.now }
    {
        self.structs
    }

    /// The place of the first structure of a name.
    pub fn number_of(&self, name: &Name) -> Option<u32>
        ensures { result ≡ struct_number self.now name.now }
    {
        first_named(self.names, self.order, name)
    }
}
