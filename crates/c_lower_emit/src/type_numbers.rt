//! A number for each of some types, found by the type: names of structures are compared here, and not again for each thing of a type.
ghost use Rattle.std.specs.Prelude.{◌≡◌, None, OnOk, OnErr};
ghost use Rattle.c_types_rules.specs.Types.{same_type};
ghost use Rattle.c_types_names.specs.NameMap.{or_last};
ghost use Rattle.c_types_names.specs.Seen.{type_seen};
ghost use Rattle.c_lower_emit.specs.TypeNumbers.{number_in};
ghost use Rattle.shape_data.specs.declared.program.Ty.{Ty};

use c_types_names::kinds::CType;
use c_types_names::name_map::NameMap;
use std::alloc::{AllocError, Global};

/// A number for each of some types. Among n structures each call takes O(log n) comparisons of their names.
pub struct TypeNumbers<'a> {
    int: Option<usize>,
    void: Option<usize>,
    of_tags: NameMap<'a, usize>,
}

// Written out, so that callers' proofs take the end of the numbers as one call.
impl<'a> Drop for TypeNumbers<'a> {
    fn drop(self) {
        let TypeNumbers {
            int: _int,
            void: _void,
            of_tags: _of_tags,
        } = self;
    }
}

impl<'a> TypeNumbers<'a> {
    /// No type has a number.
    pub fn new(alloc: Global) -> TypeNumbers<'a>
        ensures { (kind : Ty) → number_in result kind ≡ None }
    {
        TypeNumbers {
            int: None,
            void: None,
            of_tags: NameMap::new(alloc),
        }
    }

    /// The number of the type, if it has one.
    pub fn get(&self, kind: CType) -> Option<usize>
        ensures { result ≡ number_in self.now (type_seen kind.entry) }
    {
        match kind {
            CType::Int => self.int,
            CType::Pointer(tag) => self.of_tags.named(tag),
            CType::Void => self.void,
        }
    }

    /// Gives the type this number.
    pub fn set(&mut self, kind: CType<'a>, number: usize) -> Result<(), AllocError>
        ensures number { OnOk result ((k : Ty) → number_in self.new k
            ≡ or_last (number_in self.old k) (same_type (type_seen kind.entry) k) number) }
        ensures same { OnErr result ((k : Ty) → number_in self.new k ≡ number_in self.old k) }
    {
        match kind {
            CType::Int => {
                self.int = Some(number);
                Ok(())
            }
            CType::Pointer(tag) => self.of_tags.set(tag, number),
            CType::Void => {
                self.void = Some(number);
                Ok(())
            }
        }
    }
}
