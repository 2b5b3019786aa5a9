//! Writes texts of symbolic heaps and posts. A function that appends leaves, where memory wants, a text of which
//! nothing is said.
ghost use Rattle.std.specs.Prelude.{◌≡◌, ◌++◌, false, ◌<◌, length, map, codes, All, OnOk, IfOk};
ghost use Rattle.std.specs.Fmt.{decimal, signed_decimal};
ghost use Rattle.std.specs.List.{join_by};
ghost use Rattle.sym_text.specs.Led.{led_texts};
ghost use Rattle.sym_text.specs.Shape.{IsShaped, IsShapedHeap, IsShapedPost};
ghost use Rattle.sym_text.specs.Text.{variable_text, exp_text, fact_text, field_texts, atom_text, heap_text, ret_text, post_text};

use itoa::Buffer;
use shape_data::program::{Field, StructDef};
use shape_data::symbolic::{Atom, Exp, FIRST_EXISTENTIAL, Fact, Post, SymHeap};
use shape_data::{Name, struct_of};
use std::alloc::{AllocError, Global};

/// Appends a number in decimal.
///
/// # Errors
///
/// Only want of memory; what the text then is, is not said.
pub fn push_decimal(text: &mut Vec<u8>, number: u64) -> Result<(), AllocError>
    ensures { OnOk result (text.new.items ≡ text.old.items ++ decimal number) }
{
    text.extend_from_slice(Buffer::new().format(number).as_bytes())
}

/// Appends a signed number in decimal.
fn push_signed_decimal(text: &mut Vec<u8>, number: i32) -> Result<(), AllocError>
    ensures { OnOk result (text.new.items ≡ text.old.items ++ signed_decimal number) }
{
    text.extend_from_slice(Buffer::new().format(number).as_bytes())
}

/// Appends a variable.
#[tactic(auto, using(crate::proofs::Appending::appending))]
fn push_variable(text: &mut Vec<u8>, params: &[Name], variable: u32) -> Result<(), AllocError>
    ensures { OnOk result (text.new.items ≡ text.old.items ++ variable_text params.now variable) }
{
    if (variable as usize) < params.len() {
        return text.extend_from_slice(params[variable as usize].as_bytes());
    }
    if variable < FIRST_EXISTENTIAL {
        text.extend_from_slice(b"$")?;
        return push_decimal(text, u64::from(variable) - params.len() as u64 + 1);
    }
    text.extend_from_slice(b"?")?;
    push_decimal(text, u64::from(variable - (FIRST_EXISTENTIAL - 1)))
}

/// Appends the text of an expression over these parameters, as [`print_heap`] writes it.
///
/// # Errors
///
/// Only want of memory; what the text then is, is not said.
pub fn push_exp(text: &mut Vec<u8>, params: &[Name], exp: Exp) -> Result<(), AllocError>
    ensures { OnOk result (text.new.items ≡ text.old.items ++ exp_text params.now exp) }
{
    match exp {
        Exp::Var(variable) => push_variable(text, params, variable),
        Exp::Const(number) => push_signed_decimal(text, number),
    }
}

/// Appends a fact.
#[tactic(auto, using(crate::proofs::Appending::appending))]
fn push_fact(text: &mut Vec<u8>, params: &[Name], fact: Fact) -> Result<(), AllocError>
    ensures { OnOk result (text.new.items ≡ text.old.items ++ fact_text params.now fact) }
{
    match fact {
        Fact::Eq(left, right) => {
            push_exp(text, params, left)?;
            text.extend_from_slice(b"=")?;
            push_exp(text, params, right)
        }
        Fact::Ne(left, right) => {
            push_exp(text, params, left)?;
            text.extend_from_slice(b"!=")?;
            push_exp(text, params, right)
        }
    }
}

/// Appends the value of a field.
#[tactic(auto, using(crate::proofs::Appending::appending))]
fn push_field(
    text: &mut Vec<u8>,
    params: &[Name],
    name: &Name,
    value: Exp,
) -> Result<(), AllocError>
    ensures { OnOk result (text.new.items ≡ text.old.items ++ (name.now ++ codes ":" ++ exp_text params.now value)) }
{
    text.extend_from_slice(name.as_bytes())?;
    text.extend_from_slice(b":")?;
    push_exp(text, params, value)
}

/// Appends the values of fields, with a comma between each two.
#[tactic(auto, using(crate::proofs::LedTexts::joining))]
fn push_fields(
    text: &mut Vec<u8>,
    params: &[Name],
    fields: &[Field],
    values: &[Exp],
) -> Result<(), AllocError>
    requires { length values.now ≡ length fields.now }
    ensures { OnOk result (text.new.items ≡ text.old.items
        ++ join_by (λ one. one) (codes ",") (field_texts params.now (map (λ field. field.name) fields.now) values.now)) }
{
    let mut led = false;
    for place in 0..values.len() {
        if led {
            text.extend_from_slice(b",")?;
        }
        push_field(text, params, &fields[place].name, values[place])?;
        led = true;
    }
    Ok(())
}

/// Appends a cell.
#[tactic(auto, using(crate::proofs::Appending::appending))]
fn push_cell(
    text: &mut Vec<u8>,
    params: &[Name],
    at: Exp,
    kind: &Name,
    fields: &[Field],
    values: &[Exp],
) -> Result<(), AllocError>
    requires { length values.now ≡ length fields.now }
    ensures { OnOk result (text.new.items ≡ text.old.items ++ (exp_text params.now at ++ codes "|->" ++ kind.now ++ codes "("
        ++ join_by (λ one. one) (codes ",") (field_texts params.now (map (λ field. field.name) fields.now) values.now) ++ codes ")")) }
{
    push_exp(text, params, at)?;
    text.extend_from_slice(b"|->")?;
    text.extend_from_slice(kind.as_bytes())?;
    text.extend_from_slice(b"(")?;
    push_fields(text, params, fields, values)?;
    text.extend_from_slice(b")")
}

/// Appends a list segment.
#[tactic(auto, using(crate::proofs::Appending::appending))]
fn push_segment(
    text: &mut Vec<u8>,
    params: &[Name],
    kind: &Name,
    link: &Name,
    from: Exp,
    to: Exp,
) -> Result<(), AllocError>
    ensures { OnOk result (text.new.items ≡ text.old.items ++ (codes "ls[" ++ kind.now ++ codes "." ++ link.now ++ codes "]("
        ++ exp_text params.now from ++ codes "," ++ exp_text params.now to ++ codes ")")) }
{
    text.extend_from_slice(b"ls[")?;
    text.extend_from_slice(kind.as_bytes())?;
    text.extend_from_slice(b".")?;
    text.extend_from_slice(link.as_bytes())?;
    text.extend_from_slice(b"](")?;
    push_exp(text, params, from)?;
    text.extend_from_slice(b",")?;
    push_exp(text, params, to)?;
    text.extend_from_slice(b")")
}

/// Appends an atom.
fn push_atom(
    text: &mut Vec<u8>,
    params: &[Name],
    structs: &[StructDef],
    atom: &Atom,
) -> Result<(), AllocError>
    requires { IsShaped structs.now atom.now }
    ensures { OnOk result (text.new.items ≡ text.old.items ++ atom_text structs.now params.now atom.now) }
{
    match atom {
        Atom::Points { at, kind, fields } => match struct_of(structs, kind) {
            Some(def) => push_cell(
                text,
                params,
                *at,
                kind,
                def.fields.as_slice(),
                fields.as_slice(),
            ),
            None => unreachable!(),
        },
        Atom::Seg {
            kind,
            link,
            from,
            to,
        } => match struct_of(structs, kind) {
            Some(def) => push_segment(
                text,
                params,
                kind,
                &def.fields[*link as usize].name,
                *from,
                *to,
            ),
            None => unreachable!(),
        },
        Atom::Junk => text.extend_from_slice(b"junk"),
    }
}

/// Appends what stands between two parts.
fn push_separator(text: &mut Vec<u8>) -> Result<(), AllocError>
    ensures { OnOk result (text.new.items ≡ text.old.items ++ codes " * ") }
{
    text.extend_from_slice(b" * ")
}

/// Appends facts, with a separator before each but the first.
#[tactic(auto, using(crate::proofs::Appending::appending))]
fn push_facts(text: &mut Vec<u8>, params: &[Name], facts: &[Fact]) -> Result<(), AllocError>
    ensures { OnOk result (text.new.items ≡ text.old.items ++ led_texts (codes " * ") false (map (fact_text params.now) facts.now)) }
{
    let mut led = false;
    for fact in facts {
        if led {
            push_separator(text)?;
        }
        push_fact(text, params, *fact)?;
        led = true;
    }
    Ok(())
}

/// Appends atoms, with a separator before each but, unless something stands before them, the first.
#[tactic(auto, using(crate::proofs::Appending::appending))]
fn push_atoms(
    text: &mut Vec<u8>,
    params: &[Name],
    structs: &[StructDef],
    atoms: &[Atom],
    mut led: bool,
) -> Result<(), AllocError>
    requires { All (IsShaped structs.now) atoms.now }
    ensures { OnOk result
        (text.new.items ≡ text.old.items ++ led_texts (codes " * ") led (map (atom_text structs.now params.now) atoms.now)) }
{
    for atom in atoms {
        if led {
            push_separator(text)?;
        }
        push_atom(text, params, structs, atom)?;
        led = true;
    }
    Ok(())
}

/// Appends the text of a heap over these parameters and structures: `emp`, or its facts and then its atoms with ` * ` between
/// each two. Its cells have as many fields as their structures, and its segments' links are fields of theirs.
///
/// The parameters name the logical variables from 0 on; with k of them variable k + n - 1 is written `$n`, and variable
/// 65,535 + n is `?n`.
///
/// # Errors
///
/// Only want of memory; what the text then is, is not said.
pub fn push_heap(
    text: &mut Vec<u8>,
    params: &[Name],
    structs: &[StructDef],
    heap: &SymHeap,
) -> Result<(), AllocError>
    requires { IsShapedHeap structs.now heap.now }
    ensures { OnOk result (text.new.items ≡ text.old.items ++ heap_text structs.now params.now heap.now) }
{
    if heap.pure.is_empty() && heap.spatial.is_empty() {
        return text.extend_from_slice(b"emp");
    }
    push_facts(text, params, heap.pure.as_slice())?;
    push_atoms(
        text,
        params,
        structs,
        heap.spatial.as_slice(),
        !heap.pure.is_empty(),
    )
}

/// Appends ` ret=` and a result, if asked.
#[tactic(auto, using(crate::proofs::Appending::appending))]
fn push_ret(text: &mut Vec<u8>, params: &[Name], with_ret: bool, ret: Exp) -> Result<(), AllocError>
    ensures { OnOk result (text.new.items ≡ text.old.items ++ ret_text params.now with_ret ret) }
{
    if with_ret {
        text.extend_from_slice(b" ret=")?;
        push_exp(text, params, ret)
    } else {
        Ok(())
    }
}

/// Appends the text of a post over these parameters and structures: its heap, as [`push_heap`] writes it, and, if asked, ` ret=`
/// and its result.
///
/// # Errors
///
/// Only want of memory; what the text then is, is not said.
#[tactic(auto, using(crate::proofs::Appending::appending))]
pub fn push_post(
    text: &mut Vec<u8>,
    params: &[Name],
    structs: &[StructDef],
    post: &Post,
    with_ret: bool,
) -> Result<(), AllocError>
    requires { IsShapedPost structs.now post.now }
    ensures { OnOk result (text.new.items ≡ text.old.items ++ post_text structs.now params.now with_ret post.now) }
{
    push_heap(text, params, structs, &post.heap)?;
    push_ret(text, params, with_ret, post.ret)
}

/// The text of a heap over these parameters and structures, as [`push_heap`] appends it. The only error is want of memory.
pub fn print_heap(
    alloc: Global,
    heap: &SymHeap,
    params: &[Name],
    structs: &[StructDef],
) -> Result<Vec<u8>, AllocError>
    requires { IsShapedHeap structs.now heap.now }
    ensures { IfOk result (λ text. text.items ≡ heap_text structs.now params.now heap.now) }
{
    let mut text = Vec::new(alloc);
    push_heap(&mut text, params, structs, heap)?;
    Ok(text)
}

/// The text of a post over these parameters and structures, as [`push_post`] appends it. The only error is want of memory.
pub fn print_post(
    alloc: Global,
    post: &Post,
    params: &[Name],
    structs: &[StructDef],
    with_ret: bool,
) -> Result<Vec<u8>, AllocError>
    requires { IsShapedPost structs.now post.now }
    ensures { IfOk result (λ text. text.items ≡ post_text structs.now params.now with_ret post.now) }
{
    let mut text = Vec::new(alloc);
    push_post(&mut text, params, structs, post, with_ret)?;
    Ok(text)
}
