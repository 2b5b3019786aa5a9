//! Structures (C11 6.7.2.1) and names of types (C11 6.7.8).
ghost use Rattle.std.specs.Prelude.{◌≡◌, ◌&&◌, ◌++◌, ◌∷◌, not, IfOk, OnOk, map, option_map};
ghost use Rattle.c_types_rules.specs.Items.{
  declarator_refusals,
  lines_refusals,
  same_fields,
  repeated_refusals,
  structure_refusals,
  same_alias,
  is_procedure,
  alias_refusals,
};
ghost use Rattle.c_grammar.specs.Readers.{place_of_specifier};
ghost use Rattle.c_types_rules.specs.Types.{unless as unless_of, LEFT_OUT};
ghost use Rattle.c_types_rules.specs.Tables.{field_kinds, structure_in, alias_in, specifier_refusals, may_be_object};
ghost use Rattle.c_tree.specs.NonEmpty.{items};
ghost use Rattle.c_tree.specs.Syntax.{ident_tree, specifier_tree, declarator_tree, fields_tree};
ghost use Rattle.c_types_names.specs.Seen.{alias_seen};
ghost use Rattle.c_types_names.specs.StructFields.{kind_of_declared};
ghost use Rattle.c_types_names.specs.FirstRefusal.{with_refusals};

use crate::fields::Fields;
use crate::names::Names;
use c_tree::places::place_of_specifier;
use c_tree::{Declarator, FieldDecl, Ident, NonEmpty, TypeSpecifier};
use c_types_names::codes::{DIFFERS, LEFT_OUT, SECOND};
use c_types_names::declared::Alias;
use c_types_names::first_refusal::FirstRefusal;
use c_types_names::kinds::same_name;
use c_types_names::objects::{may_be_object, specifier_refusals};
use c_types_names::struct_fields::StructFields;
use c_types_names::tables::Tables;
use std::alloc::{AllocError, Global};

/// Refuses a field that is neither an int nor a pointer to a structure.
fn declarator_refusal(specifier: &TypeSpecifier, one: &Declarator, first: &mut FirstRefusal)
    ensures { first.new ≡ with_refusals first.old
        (let seen = specifier_tree specifier.now in
        unless_of (may_be_object seen (declarator_tree one.now).stars) (place_of_specifier seen) LEFT_OUT) }
{
    first.unless(
        may_be_object(specifier, one.stars),
        place_of_specifier(specifier),
        LEFT_OUT,
    );
}

/// Refuses each field that is neither an int nor a pointer to a structure.
#[tactic(auto, using(crate::proofs::FieldLines::lining))]
fn declarator_refusals(
    specifier: &TypeSpecifier,
    ones: &NonEmpty<Declarator>,
    first: &mut FirstRefusal,
)
    ensures { first.new ≡ with_refusals first.old
        (declarator_refusals (specifier_tree specifier.now) (map declarator_tree (items ones.now))) }
{
    for one in ones.iter() {
        declarator_refusal(specifier, one, first);
    }
}

/// What is refused in a declaration of fields.
#[tactic(auto, using(crate::proofs::FieldLines::lining))]
fn line_refusals(tables: &Tables, line: &FieldDecl, first: &mut FirstRefusal)
    ensures { let seen = fields_tree line.now in
        first.new ≡ with_refusals first.old
        (specifier_refusals tables.now seen.specifier ++ declarator_refusals seen.specifier (seen.first ∷ seen.others)) }
{
    specifier_refusals(tables, &line.specifier, first);
    declarator_refusals(&line.specifier, &line.declarators, first);
}

/// What is refused in declarations of fields.
#[tactic(auto, using(crate::proofs::FieldLines::lining))]
fn lines_refusals(tables: &Tables, lines: &[FieldDecl], first: &mut FirstRefusal)
    ensures { first.new ≡ with_refusals first.old (lines_refusals tables.now (map fields_tree lines.now)) }
{
    for line in lines {
        line_refusals(tables, line, first);
    }
}

/// Whether a structure has the fields of the declarations.
fn same_lines<'a>(
    alloc: Global,
    tables: &Tables<'a>,
    before: &StructFields<'a>,
    lines: &'a [FieldDecl],
) -> Result<bool, AllocError>
    ensures { IfOk result (λ same. same
        ≡ same_fields (map (kind_of_declared tables.now) before.now) (field_kinds tables.now (map fields_tree lines.now))) }
{
    let mut fields = Fields::new(alloc);
    fields.push_lines(tables, lines)?;
    Ok(fields.same(tables, before))
}

/// Refuses a structure that was defined before with other fields.
#[tactic(auto, using(c_types_names::proofs::FirstRefusals::more_refusals))]
fn repeated_refusals<'a>(
    alloc: Global,
    tables: &Tables<'a>,
    before: &Tables<'a>,
    tag: &Ident,
    lines: &'a Vec<FieldDecl>,
    first: &mut FirstRefusal,
) -> Result<(), AllocError>
    ensures { let name = ident_tree tag.now in
        OnOk result (first.new
        ≡ with_refusals first.old
        (repeated_refusals tables.now (structure_in before.now.structures name.text) name (map fields_tree lines.now.items))) }
{
    match before.fields(&tag.text) {
        None => Ok(()),
        Some(before) => {
            let same = same_lines(alloc, tables, before, lines.as_slice())?;
            first.unless(same, tag.place, DIFFERS);
            Ok(())
        }
    }
}

/// What is refused in a definition of a structure.
#[tactic(auto, using(c_types_names::proofs::FirstRefusals::more_refusals))]
pub fn structure_refusals<'a>(
    alloc: Global,
    tables: &Tables<'a>,
    before: &Tables<'a>,
    tag: &Ident,
    lines: &'a Vec<FieldDecl>,
    first: &mut FirstRefusal,
) -> Result<(), AllocError>
    ensures { OnOk result (first.new
        ≡ with_refusals first.old (structure_refusals tables.now before.now (ident_tree tag.now) (map fields_tree lines.now.items))) }
{
    lines_refusals(tables, lines.as_slice(), first);
    let mut names = Names::new(alloc);
    names.push_lines(lines.as_slice())?;
    names.refuse_second(alloc, first)?;
    repeated_refusals(alloc, tables, before, tag, lines, first)
}

/// Whether a name of a type that was given before is that of the same structure.
fn same_alias(before: Option<Alias>, tag: &Ident) -> bool
    ensures { result ≡ same_alias (option_map alias_seen before.entry) (ident_tree tag.now) }
{
    match before {
        None => true,
        Some(before) => same_name(before.tag, &tag.text),
    }
}

/// Whether the name is that of a procedure.
fn is_procedure(tables: &Tables, name: &Ident) -> bool
    ensures { result ≡ is_procedure tables.now (ident_tree name.now) }
{
    tables.procedure(&name.text).is_some()
}

/// Whether the name of a type is that of no procedure and no other structure.
fn may_be_alias(before: &Tables, alias: &Ident, tag: &Ident) -> bool
    ensures { let name = ident_tree alias.now in
        result ≡ (same_alias (alias_in before.now.aliases name.text) (ident_tree tag.now) && not (is_procedure before.now name)) }
{
    same_alias(before.alias(&alias.text), tag) && !is_procedure(before, alias)
}

/// Refuses a name of a type that is that of a procedure or of another structure.
pub fn alias_refusals(before: &Tables, alias: &Ident, tag: &Ident, first: &mut FirstRefusal)
    ensures { first.new ≡ with_refusals first.old (alias_refusals before.now (ident_tree alias.now) (ident_tree tag.now)) }
{
    first.unless(may_be_alias(before, alias, tag), alias.place, SECOND);
}
