//! The block of a procedure: its name, its file and its line, and then its specs, or why it has none.
ghost use Rattle.std.specs.Prelude.{◌≡◌, ◌++◌, All, IfOk, OnOk};
ghost use Rattle.std.specs.List.{flat_map, list_any};
ghost use Rattle.sym_text.specs.Shape.{IsShapedPost, IsShapedSpec};
ghost use Rattle.report_text.specs.Parts.{IsPrintable};
ghost use Rattle.report_text.specs.Report.{block_text, has_result, head_line, is_junk, leak_text, post_line, spec_lines, summary_lines};

use crate::reasons::push_none;
use shape_data::answer::ProcSummary;
use shape_data::name::Name;
use shape_data::program::{Proc, StructDef, Ty};
use shape_data::symbolic::{Atom, Post, Spec, SymHeap};
use std::alloc::{AllocError, Global};
use sym_text::{push_decimal, push_heap, push_post};

/// Whether a procedure of this type has a result.
fn has_result(ty: &Ty) -> bool
    ensures { result ≡ has_result ty.now }
{
    match ty {
        Ty::Int | Ty::Ptr(_) => true,
        Ty::Void => false,
    }
}

/// Whether the atom is `junk`.
fn is_junk(atom: &Atom) -> bool
    ensures { result ≡ is_junk atom.now }
{
    match atom {
        Atom::Junk => true,
        _ => false,
    }
}

/// Whether the heap has `junk`.
fn has_junk(heap: &SymHeap) -> bool
    ensures { result ≡ list_any is_junk heap.now.spatial }
{
    heap.spatial.iter().any(|atom| is_junk(atom))
}

/// Appends ` leak`, where the heap has `junk`.
#[tactic(auto, using(crate::proofs::Appending::appending))]
fn push_leak(text: &mut Vec<u8>, heap: &SymHeap) -> Result<(), AllocError>
    ensures { OnOk result (text.new.items ≡ text.old.items ++ leak_text heap.now) }
{
    if has_junk(heap) {
        text.extend_from_slice(b" leak")
    } else {
        Ok(())
    }
}

/// Appends the line of a post.
#[tactic(auto, using(crate::proofs::Appending::appending))]
fn push_post_line(
    text: &mut Vec<u8>,
    structs: &[StructDef],
    params: &[Name],
    ty: &Ty,
    post: &Post,
) -> Result<(), AllocError>
    requires { IsShapedPost structs.now post.now }
    ensures { OnOk result (text.new.items ≡ text.old.items ++ post_line structs.now params.now ty.now post.now) }
{
    text.extend_from_slice(b" post ")?;
    push_post(text, params, structs, post, has_result(ty))?;
    push_leak(text, &post.heap)?;
    text.extend_from_slice(b"\n")
}

/// Appends the lines of posts.
fn push_posts(
    text: &mut Vec<u8>,
    structs: &[StructDef],
    params: &[Name],
    ty: &Ty,
    posts: &[Post],
) -> Result<(), AllocError>
    requires { All (IsShapedPost structs.now) posts.now }
    ensures { OnOk result (text.new.items ≡ text.old.items ++ flat_map (post_line structs.now params.now ty.now) posts.now) }
{
    for post in posts {
        push_post_line(text, structs, params, ty, post)?;
    }
    Ok(())
}

/// Appends the lines of a spec.
#[tactic(auto, using(crate::proofs::Appending::appending))]
fn push_spec(
    text: &mut Vec<u8>,
    structs: &[StructDef],
    params: &[Name],
    ty: &Ty,
    spec: &Spec,
) -> Result<(), AllocError>
    requires { IsShapedSpec structs.now spec.now }
    ensures { OnOk result (text.new.items ≡ text.old.items ++ spec_lines structs.now params.now ty.now spec.now) }
{
    text.extend_from_slice(b" pre ")?;
    push_heap(text, params, structs, &spec.pre)?;
    text.extend_from_slice(b"\n")?;
    push_posts(text, structs, params, ty, spec.posts.as_slice())
}

/// Appends the lines of specs.
fn push_specs(
    text: &mut Vec<u8>,
    structs: &[StructDef],
    params: &[Name],
    ty: &Ty,
    specs: &[Spec],
) -> Result<(), AllocError>
    requires { All (IsShapedSpec structs.now) specs.now }
    ensures { OnOk result (text.new.items ≡ text.old.items ++ flat_map (spec_lines structs.now params.now ty.now) specs.now) }
{
    for spec in specs {
        push_spec(text, structs, params, ty, spec)?;
    }
    Ok(())
}

/// Appends the first line of a block.
#[tactic(auto, using(crate::proofs::Appending::appending))]
fn push_head(text: &mut Vec<u8>, proc: &Proc) -> Result<(), AllocError>
    ensures { OnOk result (text.new.items ≡ text.old.items ++ head_line proc.now) }
{
    text.extend_from_slice(proc.flow.name.as_bytes())?;
    text.extend_from_slice(b" ")?;
    text.extend_from_slice(proc.file.as_bytes())?;
    text.extend_from_slice(b" ")?;
    push_decimal(text, u64::from(proc.line))?;
    text.extend_from_slice(b"\n")
}

/// Appends the lines of a summary: of its specs, or of the reason why there is none.
fn push_summary(
    text: &mut Vec<u8>,
    structs: &[StructDef],
    proc: &Proc,
    summary: &ProcSummary,
) -> Result<(), AllocError>
    requires { IsPrintable structs.now summary.now }
    ensures { OnOk result (text.new.items ≡ text.old.items ++ summary_lines structs.now proc.now summary.now.specs summary.now.reason) }
{
    if summary.specs.is_empty() {
        match summary.reason {
            Some(reason) => push_none(text, proc.line, reason),
            None => Ok(()),
        }
    } else {
        let flow = &proc.flow;
        push_specs(
            text,
            structs,
            flow.params.as_slice(),
            &flow.ret,
            summary.specs.as_slice(),
        )
    }
}

/// Appends the block of a procedure with its summary, as [`block`] makes it.
///
/// # Errors
///
/// Only want of memory; what the text then is, is not said.
#[tactic(auto, using(crate::proofs::Appending::appending))]
pub fn push_block(
    text: &mut Vec<u8>,
    structs: &[StructDef],
    proc: &Proc,
    summary: &ProcSummary,
) -> Result<(), AllocError>
    requires { IsPrintable structs.now summary.now }
    ensures { OnOk result (text.new.items ≡ text.old.items ++ block_text structs.now proc.now summary.now) }
{
    push_head(text, proc)?;
    push_summary(text, structs, proc, summary)
}

/// The block of a procedure with its summary, over the structures of its program: `PROC FILE LINE`, then for each spec its
/// precondition and its posts, or without a spec one line that says why.
///
/// The line of a node counts from the procedure's first line, that of a report from the file's. The only error is want of
/// memory.
pub fn block(
    alloc: Global,
    proc: &Proc,
    summary: &ProcSummary,
    structs: &[StructDef],
) -> Result<Vec<u8>, AllocError>
    requires { IsPrintable structs.now summary.now }
    ensures { IfOk result (λ text. text.items ≡ block_text structs.now proc.now summary.now) }
{
    let mut text = Vec::new(alloc);
    push_block(&mut text, structs, proc, summary)?;
    Ok(text)
}
