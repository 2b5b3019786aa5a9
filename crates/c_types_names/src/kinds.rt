//! Types as the typing rules see them, and as the flow form has them.
ghost use Rattle.std.specs.Prelude.{◌≡◌, IfOk};
ghost use Rattle.std.specs.Str.{bytes_eq};
ghost use Rattle.c_types_rules.specs.Types.{same_type, may_agree, may_be_int, may_be_scalar, may_be_compared};
ghost use Rattle.c_types_rules.specs.Programs.{known};
ghost use Rattle.c_types_names.specs.Seen.{type_seen, kind_seen};

use shape_data::program::Ty;
use shape_data::{Name, copy_of};
use std::alloc::AllocError;

/// A type.
#[derive(Clone, Copy)]
pub enum CType<'a> {
    Int,
    /// A pointer to the structure of this tag.
    Pointer(&'a Name),
    Void,
}

/// The type of an expression or an object, or None where it is not known.
pub type Kind<'a> = Option<CType<'a>>;

/// The type as data of its own.
///
/// # Errors
///
/// Only want of memory.
pub fn type_of(kind: CType) -> Result<Ty, AllocError>
    ensures { IfOk result (λ ty. ty ≡ type_seen kind.entry) }
{
    match kind {
        CType::Int => Ok(Ty::Int),
        CType::Pointer(tag) => Ok(Ty::Ptr(copy_of(tag)?)),
        CType::Void => Ok(Ty::Void),
    }
}

/// The type, where it is known, or else int.
pub fn known(kind: Kind) -> CType
    ensures { type_seen result ≡ known (kind_seen kind.entry) }
{
    match kind {
        None => CType::Int,
        Some(found) => found,
    }
}

/// The type as data of its own, where it is known, or else int.
///
/// # Errors
///
/// Only want of memory.
pub fn known_type(kind: Kind) -> Result<Ty, AllocError>
    ensures { IfOk result (λ ty. ty ≡ known (kind_seen kind.entry)) }
{
    type_of(known(kind))
}

/// Whether the names have the same bytes.
pub fn same_name(one: &Name, other: &Name) -> bool
    ensures { result ≡ bytes_eq one.now other.now }
{
    one.as_bytes() == other.as_bytes()
}

/// Whether the types are equal.
fn same_type(one: CType, other: CType) -> bool
    ensures { result ≡ same_type (type_seen one.entry) (type_seen other.entry) }
{
    match (one, other) {
        (CType::Int, CType::Int) => true,
        (CType::Pointer(one), CType::Pointer(other)) => same_name(one, other),
        (CType::Void, CType::Void) => true,
        _ => false,
    }
}

/// Whether the types are equal, or one of them is not known.
pub fn may_agree(one: Kind, other: Kind) -> bool
    ensures { result ≡ may_agree (kind_seen one.entry) (kind_seen other.entry) }
{
    match (one, other) {
        (Some(one), Some(other)) => same_type(one, other),
        _ => true,
    }
}

/// Whether the type is int, or not known.
pub fn may_be_int(kind: Kind) -> bool
    ensures { result ≡ may_be_int (kind_seen kind.entry) }
{
    may_agree(kind, Some(CType::Int))
}

/// Whether the type is int or a pointer, or not known.
pub fn may_be_scalar(kind: Kind) -> bool
    ensures { result ≡ may_be_scalar (kind_seen kind.entry) }
{
    match kind {
        Some(CType::Void) => false,
        _ => true,
    }
}

/// Whether `==` and `!=` compare the types; a null pointer is of any pointer type, too.
pub fn may_be_compared(kind: Kind, is_null: bool, other: Kind, other_is_null: bool) -> bool
    ensures { result ≡ may_be_compared (kind_seen kind.entry) is_null (kind_seen other.entry) other_is_null }
{
    match (kind, other) {
        (Some(CType::Void), _) => false,
        (_, Some(CType::Void)) => false,
        (Some(CType::Pointer(_)), Some(CType::Int)) => other_is_null,
        (Some(CType::Int), Some(CType::Pointer(_))) => is_null,
        (kind, other) => may_agree(kind, other),
    }
}
