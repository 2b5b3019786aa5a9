//! Types and structures.
ghost use Rattle.std.specs.Prelude.{◌≡◌, Some, map, IfOk, IfErr};
ghost use Rattle.serde_json.specs.View.{view};
ghost use Rattle.flow_json.specs.Types.{pointer_parts, ty_of_word};
ghost use Rattle.flow_json.specs.Unread.{IsUnread};

use crate::forms::Form;
use crate::lists::{list_value, read_list};
use crate::unread::Unread;
use crate::values::{items, text};
use serde_json::{Value, json};
use shape_data::name::Name;
use shape_data::program::{Field, StructDef, Ty};
use std::alloc::{AllocError, Global};

/// `"int"` or `"void"`.
fn ty_of_word(word: &str) -> Result<Ty, Unread>
    ensures ok { IfOk result (λ ty. ty_of_word word.now ≡ Some ty) }
    ensures err { IfErr result (λ fault. IsUnread fault (ty_of_word word.now)) }
{
    if word == "int" {
        Ok(Ty::Int)
    } else if word == "void" {
        Ok(Ty::Void)
    } else {
        Err(Unread::NotOfForm)
    }
}

/// `"ptr"` and a name.
#[tactic(auto, unfolding(crate::specs::Forms::go_on))]
fn read_pointer(alloc: Global, parts: &[Value]) -> Result<Ty, Unread>
    ensures ok { IfOk result (λ ty. pointer_parts (map view parts.now) ≡ Some ty) }
    ensures err { IfErr result (λ fault. IsUnread fault (pointer_parts (map view parts.now))) }
{
    match parts {
        [tag, name] => {
            if text(tag)? == "ptr" {
                Ok(Ty::Ptr(Name::of_value(alloc, name)?))
            } else {
                Err(Unread::NotOfForm)
            }
        }
        _ => Err(Unread::NotOfForm),
    }
}

impl Form for Ty {
    ghost use Rattle.flow_json.specs.Types.{read_ty, ty_data, TyIsText};

    ghost written = { ty_data };

    ghost reader = { read_ty };

    ghost fits = { TyIsText };

    fn to_value(&self, alloc: Global) -> Result<Value, AllocError> {
        match self {
            Ty::Int => json!(in alloc; "int"),
            Ty::Void => json!(in alloc; "void"),
            Ty::Ptr(name) => json!(in alloc; ["ptr", name.to_value(alloc)?]),
        }
    }

    #[tactic(auto, unfolding(crate::specs::Forms::go_on))]
    fn of_value(alloc: Global, value: &Value) -> Result<Ty, Unread> {
        match value.as_str() {
            Some(word) => ty_of_word(word),
            None => read_pointer(alloc, items(value)?),
        }
    }
}

impl Form for Field {
    ghost use Rattle.flow_json.specs.Types.{field_data, read_field, FieldIsText};

    ghost written = { field_data };

    ghost reader = { read_field };

    ghost fits = { FieldIsText };

    fn to_value(&self, alloc: Global) -> Result<Value, AllocError> {
        json!(in alloc; [self.name.to_value(alloc)?, self.ty.to_value(alloc)?])
    }

    #[tactic(auto, unfolding(crate::specs::Forms::go_on))]
    fn of_value(alloc: Global, value: &Value) -> Result<Field, Unread> {
        match items(value)? {
            [name, ty] => Ok(Field {
                name: Name::of_value(alloc, name)?,
                ty: Ty::of_value(alloc, ty)?,
            }),
            _ => Err(Unread::NotOfForm),
        }
    }
}

impl Form for StructDef {
    ghost use Rattle.flow_json.specs.Types.{read_struct, struct_data, StructIsText};

    ghost written = { struct_data };

    ghost reader = { read_struct };

    ghost fits = { StructIsText };

    fn to_value(&self, alloc: Global) -> Result<Value, AllocError> {
        json!(in alloc; [self.name.to_value(alloc)?, list_value(alloc, self.fields.as_slice())?])
    }

    #[tactic(auto, unfolding(crate::specs::Forms::go_on))]
    fn of_value(alloc: Global, value: &Value) -> Result<StructDef, Unread> {
        match items(value)? {
            [name, fields] => Ok(StructDef {
                name: Name::of_value(alloc, name)?,
                fields: read_list(alloc, fields)?,
            }),
            _ => Err(Unread::NotOfForm),
        }
    }
}
