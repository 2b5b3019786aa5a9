//! Tests of names: whether one is a C name, and whether the names of a list differ. Names are compared
//! pairwise in loops, since lists come from files and stores and may be long.
ghost use Rattle.std.specs.Prelude.{◌≡◌, ◌≢◌, ◌↔◌, All, IsTrue};
ghost use Rattle.std.specs.List.{list_all};
ghost use Rattle.shape_data.specs.Names.{is_name_start, is_name_byte, IsCName, HaveDifferentNames};

use crate::answer::Callee;
use crate::name::Name;
use crate::program::{Field, Flow, Proc, StructDef};

/// What has a name.
pub trait Named {
    ghost use Rattle.std.specs.Prelude.{◌≡◌, List, ℕ};

    ghost name_of: { Self → List ℕ };

    fn name(&self) -> &Name
        ensures { result.now ≡ name_of self.now };
}

/// Whether a C name may begin with the byte: a letter or an underscore.
pub fn is_name_start(byte: u8) -> bool
    ensures { result ≡ is_name_start byte }
{
    byte.is_ascii_alphabetic() || byte == b'_'
}

/// Whether the byte may stand in a C name: a letter, an underscore or a digit.
pub fn is_name_byte(byte: u8) -> bool
    ensures { result ≡ is_name_byte byte }
{
    is_name_start(byte) || byte.is_ascii_digit()
}

/// Whether each byte may stand in a C name.
pub fn are_name_bytes(bytes: &[u8]) -> bool
    ensures { result ≡ list_all is_name_byte bytes.now }
{
    bytes.iter().all(|byte| is_name_byte(*byte))
}

/// Whether the bytes are an identifier of C (C11 6.4.2.1). A keyword is one, by its bytes.
pub fn is_c_name(bytes: &[u8]) -> bool
    ensures { IsTrue result ↔ IsCName bytes.now }
{
    !bytes.is_empty() && is_name_start(bytes[0]) && are_name_bytes(bytes)
}

/// Whether none of the things has this name.
pub fn is_unused<T: Named>(name: &Name, things: &[T]) -> bool
    ensures { IsTrue result ↔ All (λ thing. name.now ≢ T.name_of thing) things.now }
{
    things.iter().all(|thing| *name != *thing.name())
}

/// Whether no two of the things have the same name.
pub fn have_different_names<T: Named>(things: &[T]) -> bool
    ensures { IsTrue result ↔ HaveDifferentNames T.name_of things.now }
{
    for (place, thing) in things.iter().enumerate() {
        if !is_unused(thing.name(), &things[place + 1..]) {
            return false;
        }
    }
    true
}

impl Named for Name {
    ghost name_of = { λ name. name };

    fn name(&self) -> &Name {
        self
    }
}

impl Named for Field {
    ghost name_of = { λ field. field.name };

    fn name(&self) -> &Name {
        &self.name
    }
}

impl Named for StructDef {
    ghost name_of = { λ def. def.name };

    fn name(&self) -> &Name {
        &self.name
    }
}

impl Named for Flow {
    ghost name_of = { λ flow. flow.name };

    fn name(&self) -> &Name {
        &self.name
    }
}

impl Named for Proc {
    ghost name_of = { λ proc. proc.flow.name };

    fn name(&self) -> &Name {
        &self.flow.name
    }
}

impl Named for Callee {
    ghost name_of = { λ callee. callee.name };

    fn name(&self) -> &Name {
        &self.name
    }
}

/// What can be called: it has a name and parameters.
pub trait Callable: Named {
    ghost use Rattle.std.specs.Prelude.{◌≡◌, List, ℕ};

    ghost params_of: { Self → List (List ℕ) };

    fn params(&self) -> &[Name]
        ensures { result.now ≡ params_of self.now };
}

impl Callable for Flow {
    ghost params_of = { λ flow. flow.params };

    fn params(&self) -> &[Name] {
        self.params.as_slice()
    }
}

impl Callable for Proc {
    ghost params_of = { λ proc. proc.flow.params };

    fn params(&self) -> &[Name] {
        self.flow.params.as_slice()
    }
}

impl Callable for Callee {
    ghost params_of = { λ callee. callee.params };

    fn params(&self) -> &[Name] {
        self.params.as_slice()
    }
}
