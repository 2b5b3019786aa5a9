//! Expressions that are in hand, and members of what they point to (C11 6.5.2.3).
ghost use Rattle.std.specs.Prelude.{◌≡◌, Some, map, option_map, IfOk};
ghost use Rattle.c_grammar.specs.Trees.{Name as NameTree};
ghost use Rattle.c_types_rules.specs.Tables.{Tables, field_of};
ghost use Rattle.c_types_rules.specs.Expressions.{kind_of_member};
ghost use Rattle.c_tree.specs.NonEmpty.{items};
ghost use Rattle.c_tree.specs.Syntax.{ident_tree};
ghost use Rattle.c_types_names.specs.Seen.{type_seen, kind_seen, field_seen};
ghost use Rattle.c_lower_rules.specs.Contexts.{tag_of};
ghost use Rattle.c_lower_rules.specs.Values.{Lowering};
ghost use Rattle.c_lower_rules.specs.Expressions.{slot_read, field_behind, member, members};
ghost use Rattle.c_lower_emit.specs.Emitting.{Out};
ghost use Rattle.c_lower_emit.specs.declared.uses.Use.TheVariants.{Value};
ghost use Rattle.c_lower_exprs.specs.Fields.{field_found};
ghost use Rattle.c_lower_exprs.specs.Lowered.{IsLowered};

use crate::site::Site;
use c_lower_emit::output::Output;
use c_lower_emit::uses::Use;
use c_tree::{Ident, Name, NonEmpty};
use c_types_names::kinds::{CType, Kind, known};
use c_types_names::objects::{FieldKind, placed_field};
use shape_data::copy_of;
use shape_data::program::{Cmd, Operand};
use std::alloc::{AllocError, Global};

/// An expression that was emitted: its type, and its value where that was wanted.
#[derive(Clone, Copy)]
pub struct Found<'a> {
    pub kind: CType<'a>,
    pub operand: Operand,
}

/// A field of what a pointer points to, where nodes stand: the tag of the structure, the place of the field in it, and its type.
#[derive(Drop)]
pub struct Field<'a> {
    pub tag: Name,
    pub place: u32,
    pub kind: CType<'a>,
}

/// The slot that a value is read from.
pub fn slot_read(operand: Operand) -> u32
    ensures { result ≡ slot_read operand }
{
    match operand {
        Operand::Slot(slot) => slot,
        Operand::Num(_) => 0,
    }
}

/// The tag of the structure that a pointer points to.
pub fn tag_of(alloc: Global, kind: CType) -> Result<Name, AllocError>
    ensures { IfOk result (λ tag. tag ≡ tag_of (type_seen kind.entry)) }
{
    match kind {
        CType::Int => Name::of(alloc, b"_"),
        CType::Pointer(tag) => copy_of(tag),
        CType::Void => Name::of(alloc, b"_"),
    }
}

/// The type of the field that was found behind a pointer of the type; none where the type is no pointer.
fn kind_behind<'a>(pointer: CType<'a>, found: Option<FieldKind<'a>>) -> Kind<'a>
    ensures { (tables : Tables) → (field : NameTree)
        → option_map field_seen found.entry ≡ field_of tables (tag_of (type_seen pointer.entry)) field.text
        → kind_seen result ≡ kind_of_member tables (Some (type_seen pointer.entry)) field }
{
    match pointer {
        CType::Pointer(_) => match found {
            None => None,
            Some(found) => found.kind,
        },
        CType::Int | CType::Void => None,
    }
}

/// The field of what a pointer of the type points to.
pub fn field_behind<'a>(
    site: &Site<'_, 'a>,
    pointer: CType<'a>,
    field: &Ident,
) -> Result<Field<'a>, AllocError>
    ensures { IfOk result (λ found. field_found found ≡ field_behind site.now (type_seen pointer.entry) (ident_tree field.now)) }
{
    let tag = tag_of(site.alloc(), pointer)?;
    let found = placed_field(site.tables(), &tag, &field.text);
    let place = u32::try_from(found.place).unwrap_or(u32::MAX);
    let kind = known(kind_behind(pointer, found.field));
    Ok(Field { tag, place, kind })
}

/// Loads a field of what a value points to.
pub fn load<'a>(
    site: &Site<'_, 'a>,
    base: Found<'a>,
    field: &Ident,
    used: Use,
    out: &mut Output<'a>,
) -> Result<Found<'a>, AllocError>
    ensures { IfOk result (λ found. (l : Lowering) → (before : Out) → IsLowered Value l site.now.first_temp before out.old base.entry
        → IsLowered used (member site.now l (field_behind site.now l.kind (ident_tree field.now)))
        site.now.first_temp before out.new found) }
{
    let Field { tag, place, kind } = field_behind(site, base.kind, field)?;
    let cmd = Cmd::Load {
        to: 0,
        base: slot_read(base.operand),
        kind: tag,
        field: place,
        next: 0,
    };
    let operand = out.make(site.spot(), kind, cmd, used)?;
    Ok(Found { kind, operand })
}

/// The members behind one `->` after another.
pub fn members<'a>(
    site: &Site<'_, 'a>,
    base: Found<'a>,
    fields: &NonEmpty<Ident>,
    used: Use,
    out: &mut Output<'a>,
) -> Result<Found<'a>, AllocError>
    ensures { IfOk result (λ found. (l : Lowering) → (before : Out) → IsLowered Value l site.now.first_temp before out.old base.entry
        → IsLowered used (members site.now l (map ident_tree (items fields.now))) site.now.first_temp before out.new found) }
{
    let mut current = base;
    let mut field = &fields.first;
    for next in &fields.others {
        current = load(site, current, field, Use::Value, out)?;
        field = next;
    }
    load(site, current, field, used, out)
}
