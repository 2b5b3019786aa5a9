//! Writes the generated file of a number, a line for each procedure.
ghost use Rattle.std.specs.Prelude.{◌≡◌, ◌-◌, ◌≤◌, ◌++◌, codes, IfOk, OnOk};
ghost use Rattle.session_generator.specs.Generated.{call_line, generated, proc_line, proc_name, return_line};

use itoa::Buffer;
use std::alloc::{AllocError, Global};

/// Appends the name of a procedure.
#[tactic(auto, using(crate::proofs::Appending::appending))]
fn push_name(text: &mut Vec<u8>, number: u32) -> Result<(), AllocError>
    ensures { OnOk result (text.new.items ≡ text.old.items ++ proc_name number) }
{
    text.extend_from_slice(b"g")?;
    text.extend_from_slice(Buffer::new().format(number).as_bytes())
}

/// Appends a procedure's line: its type, its name, and what it does.
#[tactic(auto, using(crate::proofs::Appending::appending))]
fn push_named(text: &mut Vec<u8>, ty: &[u8], number: u32, body: &[u8]) -> Result<(), AllocError>
    ensures { OnOk result (text.new.items ≡ text.old.items ++ (ty.now ++ proc_name number ++ body.now)) }
{
    text.extend_from_slice(ty)?;
    push_name(text, number)?;
    text.extend_from_slice(body)
}

/// Appends the call of the procedure two before, and what ends the line.
#[tactic(auto, using(crate::proofs::Appending::appending))]
fn push_callee(text: &mut Vec<u8>, number: u32) -> Result<(), AllocError>
    requires { 2 ≤ number }
    ensures { OnOk result (text.new.items ≡ text.old.items ++ (proc_name (number - 2) ++ codes "(x); }\n")) }
{
    push_name(text, number - 2)?;
    text.extend_from_slice(b"(x); }\n")
}

/// Appends the line of a procedure that returns what another does.
#[tactic(auto, using(crate::proofs::Appending::appending))]
fn push_return(text: &mut Vec<u8>, number: u32) -> Result<(), AllocError>
    requires { 2 ≤ number }
    ensures { OnOk result (text.new.items ≡ text.old.items ++ return_line number) }
{
    push_named(text, b"int ", number, b"(struct cell *x) { return ")?;
    push_callee(text, number)
}

/// Appends the line of a procedure that calls another.
#[tactic(auto, using(crate::proofs::Appending::appending))]
fn push_call(text: &mut Vec<u8>, number: u32) -> Result<(), AllocError>
    requires { 2 ≤ number }
    ensures { OnOk result (text.new.items ≡ text.old.items ++ call_line number) }
{
    push_named(text, b"void ", number, b"(struct cell *x) { ")?;
    push_callee(text, number)
}

/// Appends the line of the procedure of this number.
fn push_proc(text: &mut Vec<u8>, number: u32) -> Result<(), AllocError>
    ensures { OnOk result (text.new.items ≡ text.old.items ++ proc_line number) }
{
    match number % 4 {
        0 => push_named(
            text,
            b"int ",
            number,
            b"(struct cell *x) { return x->v; }\n",
        ),
        1 => push_named(
            text,
            b"void ",
            number,
            b"(struct cell *x) { while (x) { x = x->n; } }\n",
        ),
        2 => push_return(text, number),
        _ => push_call(text, number),
    }
}

/// The generated file of a number from 1 to 1,000: a structure, and so many procedures, one on a line.
pub fn generate(alloc: Global, n: u32) -> Result<Vec<u8>, AllocError>
    requires some { 1 ≤ n }
    requires few { n ≤ 1000 }
    ensures { IfOk result (λ text. text.items ≡ generated n) }
{
    let mut text = Vec::from_slice(alloc, b"struct cell { int v; struct cell *n; };\n")?;
    for number in 0..n {
        push_proc(&mut text, number)?;
    }
    Ok(text)
}
