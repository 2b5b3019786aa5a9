//! Operands and commands: an array of the command's name and its fields in order.
ghost use Rattle.std.specs.Prelude.{◌≡◌, Some, map, IfOk, IfErr, IsUtf8};
ghost use Rattle.shape_data.specs.declared.program.Cmd.TheVariants as cmd;
ghost use Rattle.serde_json.specs.Data.{string};
ghost use Rattle.serde_json.specs.View.{view};
ghost use Rattle.flow_json.specs.Commands.{
  any_parts,
  arith_data,
  cmd_data,
  arith_of,
  arith_parts,
  branch_parts,
  call_parts,
  cell_cmd,
  cmd_of,
  copy_parts,
  free_parts,
  load_parts,
  new_parts,
  read_arith,
  read_test,
  return_parts,
  slot_cmd,
  store_parts,
  test_data,
  test_of,
};
ghost use Rattle.flow_json.specs.Forms.{count_data, option_data, read_count, read_option};
ghost use Rattle.flow_json.specs.Types.{TyIsText};
ghost use Rattle.flow_json.specs.Unread.{IsUnread};

use crate::forms::Form;
use crate::lists::{list_value, read_list};
use crate::unread::Unread;
use crate::values::{items, read_count, read_flag, read_int, text};
use serde_json::{Value, json};
use shape_data::name::Name;
use shape_data::program::{ArithOp, Cmd, Operand, TestOp, Ty};
use std::alloc::{AllocError, Global};

impl Form for Operand {
    ghost use Rattle.flow_json.specs.Commands.{operand_data, read_operand};

    ghost written = { operand_data };

    ghost reader = { read_operand };

    ghost fits = { λ operand. Unit {0} };

    fn to_value(&self, alloc: Global) -> Result<Value, AllocError> {
        match self {
            Operand::Slot(slot) => json!(in alloc; ["s", *slot]),
            Operand::Num(n) => json!(in alloc; ["n", *n]),
        }
    }

    #[tactic(auto, unfolding(crate::specs::Forms::go_on))]
    fn of_value(_alloc: Global, value: &Value) -> Result<Operand, Unread> {
        match items(value)? {
            [tag, part] => {
                let word = text(tag)?;
                if word == "s" {
                    Ok(Operand::Slot(read_count(part)?))
                } else if word == "n" {
                    Ok(Operand::Num(read_int(part)?))
                } else {
                    Err(Unread::NotOfForm)
                }
            }
            _ => Err(Unread::NotOfForm),
        }
    }
}

/// The operator's text.
fn arith_text(op: ArithOp) -> &'static str
    ensures { string result.now ≡ arith_data op }
{
    match op {
        ArithOp::Add => "+",
        ArithOp::Sub => "-",
        ArithOp::Mul => "*",
    }
}

/// The operator of a text.
fn arith_of(word: &str) -> Result<ArithOp, Unread>
    ensures ok { IfOk result (λ op. arith_of word.now ≡ Some op) }
    ensures err { IfErr result (λ fault. IsUnread fault (arith_of word.now)) }
{
    if word == "+" {
        Ok(ArithOp::Add)
    } else if word == "-" {
        Ok(ArithOp::Sub)
    } else if word == "*" {
        Ok(ArithOp::Mul)
    } else {
        Err(Unread::NotOfForm)
    }
}

/// The operator of a value.
#[tactic(auto, unfolding(crate::specs::Forms::go_on))]
fn read_arith(value: &Value) -> Result<ArithOp, Unread>
    ensures ok { IfOk result (λ op. read_arith (view value.now) ≡ Some op) }
    ensures err { IfErr result (λ fault. IsUnread fault (read_arith (view value.now))) }
{
    arith_of(text(value)?)
}

/// The test's text.
fn test_text(op: TestOp) -> &'static str
    ensures { string result.now ≡ test_data op }
{
    match op {
        TestOp::Eq => "==",
        TestOp::Ne => "!=",
        TestOp::Lt => "<",
        TestOp::Le => "<=",
        TestOp::Gt => ">",
        TestOp::Ge => ">=",
    }
}

/// The test of a text.
fn test_of(word: &str) -> Result<TestOp, Unread>
    ensures ok { IfOk result (λ op. test_of word.now ≡ Some op) }
    ensures err { IfErr result (λ fault. IsUnread fault (test_of word.now)) }
{
    if word == "==" {
        Ok(TestOp::Eq)
    } else if word == "!=" {
        Ok(TestOp::Ne)
    } else if word == "<" {
        Ok(TestOp::Lt)
    } else if word == "<=" {
        Ok(TestOp::Le)
    } else if word == ">" {
        Ok(TestOp::Gt)
    } else if word == ">=" {
        Ok(TestOp::Ge)
    } else {
        Err(Unread::NotOfForm)
    }
}

/// The test of a value.
#[tactic(auto, unfolding(crate::specs::Forms::go_on))]
fn read_test(value: &Value) -> Result<TestOp, Unread>
    ensures ok { IfOk result (λ op. read_test (view value.now) ≡ Some op) }
    ensures err { IfErr result (λ fault. IsUnread fault (read_test (view value.now))) }
{
    test_of(text(value)?)
}

/// A slot, or `null`.
fn slot_value(slot: Option<u32>) -> Value
    ensures { view result ≡ option_data count_data slot }
{
    match slot {
        Some(slot) => Value::from(slot),
        None => Value::Null,
    }
}

/// The slot of a value, if it is not `null`.
#[tactic(auto, unfolding(crate::specs::Forms::go_on))]
fn read_slot(value: &Value) -> Result<Option<u32>, Unread>
    ensures ok { IfOk result (λ slot. read_option read_count (view value.now) ≡ Some slot) }
    ensures err { IfErr result (λ fault. IsUnread fault (read_option read_count (view value.now))) }
{
    if value.is_null() {
        Ok(None)
    } else {
        Ok(Some(read_count(value)?))
    }
}

#[tactic(auto, unfolding(crate::specs::Forms::go_on))]
fn copy_parts(alloc: Global, parts: &[Value]) -> Result<Cmd, Unread>
    ensures ok { IfOk result (λ cmd. copy_parts (map view parts.now) ≡ Some cmd) }
    ensures err { IfErr result (λ fault. IsUnread fault (copy_parts (map view parts.now))) }
{
    match parts {
        [to, from, next] => Ok(Cmd::Copy {
            to: read_count(to)?,
            from: Operand::of_value(alloc, from)?,
            next: read_count(next)?,
        }),
        _ => Err(Unread::NotOfForm),
    }
}

#[tactic(auto, unfolding(crate::specs::Forms::go_on))]
fn arith_parts(alloc: Global, parts: &[Value]) -> Result<Cmd, Unread>
    ensures ok { IfOk result (λ cmd. arith_parts (map view parts.now) ≡ Some cmd) }
    ensures err { IfErr result (λ fault. IsUnread fault (arith_parts (map view parts.now))) }
{
    match parts {
        [to, op, left, right, next] => Ok(Cmd::Arith {
            to: read_count(to)?,
            op: read_arith(op)?,
            left: Operand::of_value(alloc, left)?,
            right: Operand::of_value(alloc, right)?,
            next: read_count(next)?,
        }),
        _ => Err(Unread::NotOfForm),
    }
}

#[tactic(auto, unfolding(crate::specs::Forms::go_on))]
fn any_parts(alloc: Global, parts: &[Value]) -> Result<Cmd, Unread>
    ensures ok { IfOk result (λ cmd. any_parts (map view parts.now) ≡ Some cmd) }
    ensures err { IfErr result (λ fault. IsUnread fault (any_parts (map view parts.now))) }
{
    match parts {
        [to, ty, next] => Ok(Cmd::Any {
            to: read_count(to)?,
            ty: Ty::of_value(alloc, ty)?,
            next: read_count(next)?,
        }),
        _ => Err(Unread::NotOfForm),
    }
}

#[tactic(auto, unfolding(crate::specs::Forms::go_on))]
fn load_parts(alloc: Global, parts: &[Value]) -> Result<Cmd, Unread>
    ensures ok { IfOk result (λ cmd. load_parts (map view parts.now) ≡ Some cmd) }
    ensures err { IfErr result (λ fault. IsUnread fault (load_parts (map view parts.now))) }
{
    match parts {
        [to, base, kind, field, next] => Ok(Cmd::Load {
            to: read_count(to)?,
            base: read_count(base)?,
            kind: Name::of_value(alloc, kind)?,
            field: read_count(field)?,
            next: read_count(next)?,
        }),
        _ => Err(Unread::NotOfForm),
    }
}

#[tactic(auto, unfolding(crate::specs::Forms::go_on))]
fn store_parts(alloc: Global, parts: &[Value]) -> Result<Cmd, Unread>
    ensures ok { IfOk result (λ cmd. store_parts (map view parts.now) ≡ Some cmd) }
    ensures err { IfErr result (λ fault. IsUnread fault (store_parts (map view parts.now))) }
{
    match parts {
        [base, kind, field, from, next] => Ok(Cmd::Store {
            base: read_count(base)?,
            kind: Name::of_value(alloc, kind)?,
            field: read_count(field)?,
            from: Operand::of_value(alloc, from)?,
            next: read_count(next)?,
        }),
        _ => Err(Unread::NotOfForm),
    }
}

#[tactic(auto, unfolding(crate::specs::Forms::go_on))]
fn new_parts(alloc: Global, parts: &[Value]) -> Result<Cmd, Unread>
    ensures ok { IfOk result (λ cmd. new_parts (map view parts.now) ≡ Some cmd) }
    ensures err { IfErr result (λ fault. IsUnread fault (new_parts (map view parts.now))) }
{
    match parts {
        [to, kind, next] => Ok(Cmd::New {
            to: read_count(to)?,
            kind: Name::of_value(alloc, kind)?,
            next: read_count(next)?,
        }),
        _ => Err(Unread::NotOfForm),
    }
}

#[tactic(auto, unfolding(crate::specs::Forms::go_on))]
fn free_parts(alloc: Global, parts: &[Value]) -> Result<Cmd, Unread>
    ensures ok { IfOk result (λ cmd. free_parts (map view parts.now) ≡ Some cmd) }
    ensures err { IfErr result (λ fault. IsUnread fault (free_parts (map view parts.now))) }
{
    match parts {
        [base, kind, next] => Ok(Cmd::Free {
            base: read_count(base)?,
            kind: Name::of_value(alloc, kind)?,
            next: read_count(next)?,
        }),
        _ => Err(Unread::NotOfForm),
    }
}

#[tactic(auto, unfolding(crate::specs::Forms::go_on))]
fn call_parts(alloc: Global, parts: &[Value]) -> Result<Cmd, Unread>
    ensures ok { IfOk result (λ cmd. call_parts (map view parts.now) ≡ Some cmd) }
    ensures err { IfErr result (λ fault. IsUnread fault (call_parts (map view parts.now))) }
{
    match parts {
        [to, callee, args, next] => Ok(Cmd::Call {
            to: read_slot(to)?,
            callee: Name::of_value(alloc, callee)?,
            args: read_list(alloc, args)?,
            next: read_count(next)?,
        }),
        _ => Err(Unread::NotOfForm),
    }
}

#[tactic(auto, unfolding(crate::specs::Forms::go_on))]
fn branch_parts(alloc: Global, parts: &[Value]) -> Result<Cmd, Unread>
    ensures ok { IfOk result (λ cmd. branch_parts (map view parts.now) ≡ Some cmd) }
    ensures err { IfErr result (λ fault. IsUnread fault (branch_parts (map view parts.now))) }
{
    match parts {
        [op, pointers, left, right, yes, no] => Ok(Cmd::Branch {
            op: read_test(op)?,
            pointers: read_flag(pointers)?,
            left: Operand::of_value(alloc, left)?,
            right: Operand::of_value(alloc, right)?,
            yes: read_count(yes)?,
            no: read_count(no)?,
        }),
        _ => Err(Unread::NotOfForm),
    }
}

#[tactic(auto, unfolding(crate::specs::Forms::go_on))]
fn return_parts(alloc: Global, parts: &[Value]) -> Result<Cmd, Unread>
    ensures ok { IfOk result (λ cmd. return_parts (map view parts.now) ≡ Some cmd) }
    ensures err { IfErr result (λ fault. IsUnread fault (return_parts (map view parts.now))) }
{
    match parts {
        [value] => Ok(Cmd::Return {
            value: Operand::of_value(alloc, value)?,
        }),
        _ => Err(Unread::NotOfForm),
    }
}

/// The command of a name that is of slots alone, with these fields.
fn slot_cmd(alloc: Global, parts: &[Value], word: &str) -> Result<Cmd, Unread>
    ensures ok { IfOk result (λ cmd. slot_cmd (map view parts.now) word.now ≡ Some cmd) }
    ensures err { IfErr result (λ fault. IsUnread fault (slot_cmd (map view parts.now) word.now)) }
{
    if word == "copy" {
        copy_parts(alloc, parts)
    } else if word == "arith" {
        arith_parts(alloc, parts)
    } else if word == "any" {
        any_parts(alloc, parts)
    } else {
        Err(Unread::NotOfForm)
    }
}

/// The command of a name that is of cells, or of slots alone.
fn cell_cmd(alloc: Global, parts: &[Value], word: &str) -> Result<Cmd, Unread>
    ensures ok { IfOk result (λ cmd. cell_cmd (map view parts.now) word.now ≡ Some cmd) }
    ensures err { IfErr result (λ fault. IsUnread fault (cell_cmd (map view parts.now) word.now)) }
{
    if word == "load" {
        load_parts(alloc, parts)
    } else if word == "store" {
        store_parts(alloc, parts)
    } else if word == "new" {
        new_parts(alloc, parts)
    } else if word == "free" {
        free_parts(alloc, parts)
    } else {
        slot_cmd(alloc, parts, word)
    }
}

/// The command of a name, with these fields.
fn cmd_of(alloc: Global, parts: &[Value], word: &str) -> Result<Cmd, Unread>
    ensures ok { IfOk result (λ cmd. cmd_of (map view parts.now) word.now ≡ Some cmd) }
    ensures err { IfErr result (λ fault. IsUnread fault (cmd_of (map view parts.now) word.now)) }
{
    if word == "call" {
        call_parts(alloc, parts)
    } else if word == "branch" {
        branch_parts(alloc, parts)
    } else if word == "return" {
        return_parts(alloc, parts)
    } else {
        cell_cmd(alloc, parts, word)
    }
}

/// `Copy`.
fn copy_value(alloc: Global, to: u32, from: &Operand, next: u32) -> Result<Value, AllocError>
    ensures { IfOk result (λ value. view value ≡ cmd_data (cmd.Copy to from.now next)) }
{
    json!(in alloc; ["copy", to, from.to_value(alloc)?, next])
}

/// `Arith`.
fn arith_value(
    alloc: Global,
    to: u32,
    op: ArithOp,
    left: &Operand,
    right: &Operand,
    next: u32,
) -> Result<Value, AllocError>
    ensures { IfOk result (λ value. view value ≡ cmd_data (cmd.Arith to op left.now right.now next)) }
{
    json!(in alloc; ["arith", to, arith_text(op), left.to_value(alloc)?, right.to_value(alloc)?, next])
}

/// `Any`.
fn any_value(alloc: Global, to: u32, ty: &Ty, next: u32) -> Result<Value, AllocError>
    requires { TyIsText ty.now }
    ensures { IfOk result (λ value. view value ≡ cmd_data (cmd.Any to ty.now next)) }
{
    json!(in alloc; ["any", to, ty.to_value(alloc)?, next])
}

/// `Load`.
fn load_value(
    alloc: Global,
    to: u32,
    base: u32,
    kind: &Name,
    field: u32,
    next: u32,
) -> Result<Value, AllocError>
    requires { IsUtf8 kind.now }
    ensures { IfOk result (λ value. view value ≡ cmd_data (cmd.Load to base kind.now field next)) }
{
    json!(in alloc; ["load", to, base, kind.to_value(alloc)?, field, next])
}

/// `Store`.
fn store_value(
    alloc: Global,
    base: u32,
    kind: &Name,
    field: u32,
    from: &Operand,
    next: u32,
) -> Result<Value, AllocError>
    requires { IsUtf8 kind.now }
    ensures { IfOk result (λ value. view value ≡ cmd_data (cmd.Store base kind.now field from.now next)) }
{
    json!(in alloc; ["store", base, kind.to_value(alloc)?, field, from.to_value(alloc)?, next])
}

/// `New`.
fn new_value(alloc: Global, to: u32, kind: &Name, next: u32) -> Result<Value, AllocError>
    requires { IsUtf8 kind.now }
    ensures { IfOk result (λ value. view value ≡ cmd_data (cmd.New to kind.now next)) }
{
    json!(in alloc; ["new", to, kind.to_value(alloc)?, next])
}

/// `Free`.
fn free_value(alloc: Global, base: u32, kind: &Name, next: u32) -> Result<Value, AllocError>
    requires { IsUtf8 kind.now }
    ensures { IfOk result (λ value. view value ≡ cmd_data (cmd.Free base kind.now next)) }
{
    json!(in alloc; ["free", base, kind.to_value(alloc)?, next])
}

/// `Call`.
fn call_value(
    alloc: Global,
    to: Option<u32>,
    callee: &Name,
    args: &[Operand],
    next: u32,
) -> Result<Value, AllocError>
    requires { IsUtf8 callee.now }
    ensures { IfOk result (λ value. view value ≡ cmd_data (cmd.Call to callee.now args.now next)) }
{
    json!(in alloc; ["call", slot_value(to), callee.to_value(alloc)?, list_value(alloc, args)?, next])
}

/// `Branch`.
fn branch_value(
    alloc: Global,
    op: TestOp,
    pointers: bool,
    left: &Operand,
    right: &Operand,
    yes: u32,
    no: u32,
) -> Result<Value, AllocError>
    ensures { IfOk result (λ value. view value ≡ cmd_data (cmd.Branch op pointers left.now right.now yes no)) }
{
    json!(in alloc; ["branch", test_text(op), pointers, left.to_value(alloc)?, right.to_value(alloc)?, yes, no])
}

/// `Return`.
fn return_value(alloc: Global, value: &Operand) -> Result<Value, AllocError>
    ensures { IfOk result (λ returned. view returned ≡ cmd_data (cmd.Return value.now)) }
{
    json!(in alloc; ["return", value.to_value(alloc)?])
}

impl Form for Cmd {
    ghost use Rattle.flow_json.specs.Commands.{cmd_data, read_cmd, CmdIsText};

    ghost written = { cmd_data };

    ghost reader = { read_cmd };

    ghost fits = { CmdIsText };

    fn to_value(&self, alloc: Global) -> Result<Value, AllocError> {
        match self {
            Cmd::Copy { to, from, next } => copy_value(alloc, *to, from, *next),
            Cmd::Arith {
                to,
                op,
                left,
                right,
                next,
            } => arith_value(alloc, *to, *op, left, right, *next),
            Cmd::Any { to, ty, next } => any_value(alloc, *to, ty, *next),
            Cmd::Load {
                to,
                base,
                kind,
                field,
                next,
            } => load_value(alloc, *to, *base, kind, *field, *next),
            Cmd::Store {
                base,
                kind,
                field,
                from,
                next,
            } => store_value(alloc, *base, kind, *field, from, *next),
            Cmd::New { to, kind, next } => new_value(alloc, *to, kind, *next),
            Cmd::Free { base, kind, next } => free_value(alloc, *base, kind, *next),
            Cmd::Call {
                to,
                callee,
                args,
                next,
            } => call_value(alloc, *to, callee, args.as_slice(), *next),
            Cmd::Branch {
                op,
                pointers,
                left,
                right,
                yes,
                no,
            } => branch_value(alloc, *op, *pointers, left, right, *yes, *no),
            Cmd::Return { value } => return_value(alloc, value),
        }
    }

    #[tactic(auto, unfolding(crate::specs::Forms::go_on, crate::specs::Commands::read_cmd))]
    fn of_value(alloc: Global, value: &Value) -> Result<Cmd, Unread> {
        match items(value)? {
            [tag, parts @ ..] => cmd_of(alloc, parts, text(tag)?),
            [] => Err(Unread::NotOfForm),
        }
    }
}
