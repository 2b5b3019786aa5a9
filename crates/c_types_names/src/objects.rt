//! The types of objects: variables, parameters, fields and results.
ghost use Rattle.std.specs.Prelude.{◌≡◌, option_map, slice_get};
ghost use Rattle.c_types_rules.specs.Tables.{
  pointer_to,
  pointer_of,
  specifier_refusals,
  names_structure,
  object_kind,
  may_be_object,
  result_kind,
  may_be_result,
  field_kind,
  field_of,
  field_place,
  param_kind,
  kind_of_result,
  is_defined,
  is_alias,
};
ghost use Rattle.c_tree.specs.Syntax.{specifier_tree, declarator_tree, param_tree, head_tree};
ghost use Rattle.c_types_names.specs.Seen.{kind_seen, field_seen};
ghost use Rattle.c_types_names.specs.FirstRefusal.{with_refusals};
ghost use Rattle.c_types_names.specs.Specifiers.{is_int, is_void};
ghost use Rattle.c_types_names.specs.StructFields.{kind_of_declared};

use crate::codes::UNDECLARED;
use crate::first_refusal::FirstRefusal;
use crate::kinds::{CType, Kind};
use crate::struct_fields::StructFields;
use crate::tables::Tables;
use c_tree::{Declarator, Head, Ident, Name, Param, TypeSpecifier};

/// Whether the tag is that of a structure that is defined.
pub fn is_defined(tables: &Tables, tag: &Name) -> bool
    ensures { result ≡ is_defined tables.now tag.now }
{
    tables.structure(tag).is_some()
}

/// Whether the name is that of a type.
pub fn is_alias(tables: &Tables, name: &Name) -> bool
    ensures { result ≡ is_alias tables.now name.now }
{
    tables.alias(name).is_some()
}

/// A pointer to the structure of the tag, if it is defined.
fn pointer_to<'a>(tables: &Tables<'a>, tag: &'a Name) -> Kind<'a>
    ensures { kind_seen result ≡ pointer_to tables.now tag.now }
{
    if is_defined(tables, tag) {
        return Some(CType::Pointer(tag));
    }
    None
}

/// A pointer to the structure that the specifier names, where that is defined.
pub fn pointer_of<'a>(tables: &Tables<'a>, specifier: &'a TypeSpecifier) -> Kind<'a>
    ensures { kind_seen result ≡ pointer_of tables.now (specifier_tree specifier.now) }
{
    match specifier {
        TypeSpecifier::Int(_) => None,
        TypeSpecifier::Void(_) => None,
        TypeSpecifier::Struct(_, tag) => pointer_to(tables, &tag.text),
        TypeSpecifier::Alias(name) => match tables.alias(&name.text) {
            None => None,
            Some(alias) => pointer_to(tables, alias.tag),
        },
    }
}

/// Refuses a name in a specifier that is not declared.
#[tactic(auto, using(crate::proofs::FirstRefusals::more_refusals))]
pub fn specifier_refusals(tables: &Tables, specifier: &TypeSpecifier, first: &mut FirstRefusal)
    ensures { first.new ≡ with_refusals first.old (specifier_refusals tables.now (specifier_tree specifier.now)) }
{
    match specifier {
        TypeSpecifier::Int(_) => {}
        TypeSpecifier::Void(_) => {}
        TypeSpecifier::Struct(_, tag) => {
            first.unless(is_defined(tables, &tag.text), tag.place, UNDECLARED);
        }
        TypeSpecifier::Alias(name) => {
            first.unless(is_alias(tables, &name.text), name.place, UNDECLARED);
        }
    }
}

/// Whether the specifier names a structure.
pub fn names_structure(specifier: &TypeSpecifier) -> bool
    ensures { result ≡ names_structure (specifier_tree specifier.now) }
{
    match specifier {
        TypeSpecifier::Int(_) => false,
        TypeSpecifier::Void(_) => false,
        TypeSpecifier::Struct(_, _) => true,
        TypeSpecifier::Alias(_) => true,
    }
}

/// Whether the specifier is `int`.
fn is_int(specifier: &TypeSpecifier) -> bool
    ensures { result ≡ is_int (specifier_tree specifier.now) }
{
    match specifier {
        TypeSpecifier::Int(_) => true,
        TypeSpecifier::Void(_) => false,
        TypeSpecifier::Struct(_, _) => false,
        TypeSpecifier::Alias(_) => false,
    }
}

/// Whether the specifier is `void`.
fn is_void(specifier: &TypeSpecifier) -> bool
    ensures { result ≡ is_void (specifier_tree specifier.now) }
{
    match specifier {
        TypeSpecifier::Int(_) => false,
        TypeSpecifier::Void(_) => true,
        TypeSpecifier::Struct(_, _) => false,
        TypeSpecifier::Alias(_) => false,
    }
}

/// The type that a specifier and stars give to an object.
#[tactic(auto, using(crate::proofs::Stars::stars))]
pub fn object_kind<'a>(tables: &Tables<'a>, specifier: &'a TypeSpecifier, stars: usize) -> Kind<'a>
    ensures { kind_seen result ≡ object_kind tables.now (specifier_tree specifier.now) stars }
{
    if stars == 0 && is_int(specifier) {
        return Some(CType::Int);
    }
    if stars == 1 {
        return pointer_of(tables, specifier);
    }
    None
}

/// Whether the subset has objects of the type that a specifier and stars give.
#[tactic(auto, using(crate::proofs::Stars::stars))]
pub fn may_be_object(specifier: &TypeSpecifier, stars: usize) -> bool
    ensures { result ≡ may_be_object (specifier_tree specifier.now) stars }
{
    if stars == 0 && is_int(specifier) {
        return true;
    }
    stars == 1 && names_structure(specifier)
}

/// The type that a specifier and stars give to a result.
#[tactic(auto, using(crate::proofs::Stars::stars))]
fn result_kind<'a>(tables: &Tables<'a>, specifier: &'a TypeSpecifier, stars: usize) -> Kind<'a>
    ensures { kind_seen result ≡ result_kind tables.now (specifier_tree specifier.now) stars }
{
    if stars == 0 && is_void(specifier) {
        return Some(CType::Void);
    }
    object_kind(tables, specifier, stars)
}

/// Whether the subset has results of the type that a specifier and stars give.
#[tactic(auto, using(crate::proofs::Stars::stars))]
pub fn may_be_result(specifier: &TypeSpecifier, stars: usize) -> bool
    ensures { result ≡ may_be_result (specifier_tree specifier.now) stars }
{
    if stars == 0 && is_void(specifier) {
        return true;
    }
    may_be_object(specifier, stars)
}

/// The type of the procedure's result.
pub fn kind_of_result<'a>(tables: &Tables<'a>, head: &'a Head) -> Kind<'a>
    ensures { kind_seen result ≡ kind_of_result tables.now (head_tree head.now) }
{
    result_kind(tables, &head.specifier, head.declarator.stars)
}

/// The type of the parameter.
pub fn param_kind<'a>(tables: &Tables<'a>, param: &'a Param) -> Kind<'a>
    ensures { kind_seen result ≡ param_kind tables.now (param_tree param.now) }
{
    object_kind(tables, &param.specifier, param.stars)
}

/// A field and its type.
#[derive(Clone, Copy)]
pub struct FieldKind<'a> {
    pub name: &'a Ident,
    pub kind: Kind<'a>,
}

/// The field of a declarator.
#[tactic(auto, unfolding(crate::specs::Seen::field_seen))]
pub fn field_kind<'a>(
    tables: &Tables<'a>,
    specifier: &'a TypeSpecifier,
    declarator: &'a Declarator,
) -> FieldKind<'a>
    ensures { field_seen result ≡ field_kind tables.now (specifier_tree specifier.now) (declarator_tree declarator.now) }
{
    FieldKind {
        name: &declarator.name,
        kind: object_kind(tables, specifier, declarator.stars),
    }
}

/// The field at the place, with its type, if there is one.
fn field_at<'a>(
    tables: &Tables<'a>,
    fields: &StructFields<'a>,
    place: usize,
) -> Option<FieldKind<'a>>
    ensures { option_map field_seen result ≡ option_map (kind_of_declared tables.now) (slice_get fields.now place) }
{
    match fields.at(place) {
        None => None,
        Some(field) => Some(field_kind(tables, field.specifier, field.declarator)),
    }
}

/// A field of a structure, if it has one of the name, and its place there, counted from 0.
#[derive(Clone, Copy)]
pub struct PlacedField<'a> {
    pub place: usize,
    pub field: Option<FieldKind<'a>>,
}

/// The field of the name, and its place, or how many fields the structure has; 0 where there is none of the tag.
pub fn placed_field<'a>(tables: &Tables<'a>, tag: &Name, name: &Name) -> PlacedField<'a>
    ensures place { result.place ≡ field_place tables.now tag.now name.now }
    ensures field { option_map field_seen result.field ≡ field_of tables.now tag.now name.now }
{
    match tables.fields(tag) {
        None => PlacedField {
            place: 0,
            field: None,
        },
        Some(fields) => {
            let place = fields.place(name);
            let field = field_at(tables, fields, place);
            PlacedField { place, field }
        }
    }
}

/// The field of the structure, if it has one of this name.
pub fn field_of<'a>(tables: &Tables<'a>, tag: &Name, name: &Name) -> Option<FieldKind<'a>>
    ensures { option_map field_seen result ≡ field_of tables.now tag.now name.now }
{
    placed_field(tables, tag, name).field
}
