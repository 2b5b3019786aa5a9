//! The fields of structures, with their types.
ghost use Rattle.std.specs.Prelude.{◌≡◌, ◌&&◌, ◌++◌, ◌∷◌, [], OnOk, map};
ghost use Rattle.std.specs.Str.{bytes_eq};
ghost use Rattle.c_types_rules.specs.Types.{may_agree};
ghost use Rattle.c_types_rules.specs.Tables.{field_kind, field_kinds};
ghost use Rattle.c_types_rules.specs.Items.{same_fields};
ghost use Rattle.c_tree.specs.Syntax.{fields_tree};
ghost use Rattle.c_types_names.specs.Seen.{field_seen};
ghost use Rattle.c_types_names.specs.StructFields.{declared_seen, kind_of_declared};

use c_tree::FieldDecl;
use c_types_names::kinds::{may_agree, same_name};
use c_types_names::objects::{FieldKind, field_kind};
use c_types_names::struct_fields::{DeclaredField, StructFields};
use c_types_names::tables::Tables;
use std::alloc::{AllocError, Global};
use std::marker::Model;

/// Fields with their types, in the order of the text.
#[derive(Drop)]
pub struct Fields<'a> {
    found: Vec<FieldKind<'a>>,
}

impl<'a> Model for Fields<'a> {
    ghost use Rattle.std.specs.Prelude.{List, map};
    ghost use Rattle.c_types_rules.specs.Tables.{FieldKind};
    ghost use Rattle.c_types_names.specs.Seen.{field_seen};

    ghost Value = { List FieldKind };

    ghost view = { λ f. map field_seen f.found.items };
}

/// Whether the fields have the same name, and types that may agree.
#[tactic(auto, unfolding(c_types_names::specs::Seen::field_seen))]
fn same_field(one: FieldKind, other: FieldKind) -> bool
    ensures { let this = field_seen one.entry in let that = field_seen other.entry in
        result ≡ (bytes_eq this.name.text that.name.text && may_agree this.kind that.kind) }
{
    same_name(&one.name.text, &other.name.text) && may_agree(one.kind, other.kind)
}

/// Whether a declared field has the same name as the other, and a type that may agree with its.
fn same_declared<'a>(tables: &Tables<'a>, one: DeclaredField<'a>, other: FieldKind) -> bool
    ensures { let this = kind_of_declared tables.now (declared_seen one.entry) in let that = field_seen other.entry in
        result ≡ (bytes_eq this.name.text that.name.text && may_agree this.kind that.kind) }
{
    same_field(field_kind(tables, one.specifier, one.declarator), other)
}

/// Whether the fields of a structure are the same as others, in one order.
#[tactic(auto, using(crate::proofs::Sameness::fields))]
fn same_fields_of<'a>(tables: &Tables<'a>, ones: &[DeclaredField<'a>], others: &[FieldKind]) -> bool
    ensures { result ≡ same_fields (map (kind_of_declared tables.now) (map declared_seen ones.now)) (map field_seen others.now) }
{
    for (place, one) in ones.iter().enumerate() {
        if place >= others.len() {
            return false;
        }
        if !same_declared(tables, *one, others[place]) {
            return false;
        }
    }
    others.len() <= ones.len()
}

impl<'a> Fields<'a> {
    /// No fields.
    pub fn new(alloc: Global) -> Fields<'a>
        ensures { result ≡ [] }
    {
        Fields {
            found: Vec::new(alloc),
        }
    }

    /// One field more.
    fn push(&mut self, field: FieldKind<'a>) -> Result<(), AllocError>
        ensures { OnOk result (self.new ≡ self.old ++ field_seen field.entry ∷ []) }
    {
        self.found.push(field)?;
        Ok(())
    }

    /// The fields in a declaration.
    #[tactic(auto, using(c_types_names::proofs::Appending::appending))]
    fn push_line(&mut self, tables: &Tables<'a>, line: &'a FieldDecl) -> Result<(), AllocError>
        ensures { let seen = fields_tree line.now in
            OnOk result (self.new ≡ self.old ++ map (field_kind tables.now seen.specifier) (seen.first ∷ seen.others)) }
    {
        for one in line.declarators.iter() {
            self.push(field_kind(tables, &line.specifier, one))?;
        }
        Ok(())
    }

    /// The fields of a structure.
    #[tactic(auto, using(c_types_names::proofs::Appending::appending))]
    pub fn push_lines(
        &mut self,
        tables: &Tables<'a>,
        lines: &'a [FieldDecl],
    ) -> Result<(), AllocError>
        ensures { OnOk result (self.new ≡ self.old ++ field_kinds tables.now (map fields_tree lines.now)) }
    {
        for line in lines {
            self.push_line(tables, line)?;
        }
        Ok(())
    }

    /// Whether a structure has the same fields, in one order.
    pub fn same(&self, tables: &Tables<'a>, one: &StructFields<'a>) -> bool
        ensures { result ≡ same_fields (map (kind_of_declared tables.now) one.now) self.now }
    {
        same_fields_of(tables, one.as_slice(), self.found.as_slice())
    }

    /// The fields, in order.
    pub fn as_slice(&self) -> &[FieldKind<'a>]
        ensures { map field_seen result.now ≡ self.now }
    {
        self.found.as_slice()
    }
}
