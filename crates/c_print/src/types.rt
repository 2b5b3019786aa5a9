//! Types and what declares names with them (C11 6.7).
ghost use Rattle.std.specs.Prelude.{OnOk, map};
ghost use Rattle.c_grammar.specs.Printing.{
  print_specifier,
  print_declarator,
  print_each,
  print_fields,
  print_struct_body,
  print_more,
  print_param,
  print_params,
  print_head,
};
ghost use Rattle.c_print.specs.Writing.{Prints};
ghost use Rattle.c_tree.specs.Syntax.{specifier_tree, declarator_tree, fields_tree, param_tree, params_tree, head_tree};

use crate::words::{write_name, write_optional_name, write_stars, write_word};
use c_tree::{Declarator, FieldDecl, Head, Param, Params, TypeSpecifier};
use std::alloc::AllocError;

/// Writes the type specifier.
pub fn write_specifier(text: &mut Vec<u8>, specifier: &TypeSpecifier) -> Result<(), AllocError>
    ensures { OnOk result (Prints (print_specifier (specifier_tree specifier.now)) text.old.items text.new.items) }
{
    match specifier {
        TypeSpecifier::Int(_) => write_word(text, b"int"),
        TypeSpecifier::Void(_) => write_word(text, b"void"),
        TypeSpecifier::Struct(_, tag) => {
            write_word(text, b"struct")?;
            write_name(text, tag)
        }
        TypeSpecifier::Alias(alias) => write_name(text, alias),
    }
}

/// Writes the stars and the name.
pub fn write_declarator(text: &mut Vec<u8>, declarator: &Declarator) -> Result<(), AllocError>
    ensures { OnOk result (Prints (print_declarator (declarator_tree declarator.now)) text.old.items text.new.items) }
{
    write_stars(text, declarator.stars)?;
    write_name(text, &declarator.name)
}

/// Writes the declarators, each behind a comma.
fn write_more_declarators(text: &mut Vec<u8>, others: &[Declarator]) -> Result<(), AllocError>
    ensures { OnOk result (Prints (print_more print_declarator (map declarator_tree others.now)) text.old.items text.new.items) }
{
    for declarator in others {
        write_word(text, b",")?;
        write_declarator(text, declarator)?;
    }
    Ok(())
}

/// Writes the fields of one declaration, and the semicolon.
fn write_fields(text: &mut Vec<u8>, line: &FieldDecl) -> Result<(), AllocError>
    ensures { OnOk result (Prints (print_fields (fields_tree line.now)) text.old.items text.new.items) }
{
    write_specifier(text, &line.specifier)?;
    write_declarator(text, &line.declarators.first)?;
    write_more_declarators(text, &line.declarators.others)?;
    write_word(text, b";")
}

/// Writes the fields of a structure, in braces.
pub fn write_struct_body(text: &mut Vec<u8>, lines: &[FieldDecl]) -> Result<(), AllocError>
    ensures { OnOk result (Prints (print_struct_body (map fields_tree lines.now)) text.old.items text.new.items) }
{
    write_word(text, b"{")?;
    write_lines(text, lines)?;
    write_word(text, b"}")
}

/// Writes the declarations of fields, one behind another.
fn write_lines(text: &mut Vec<u8>, lines: &[FieldDecl]) -> Result<(), AllocError>
    ensures { OnOk result (Prints (print_each print_fields (map fields_tree lines.now)) text.old.items text.new.items) }
{
    for line in lines {
        write_fields(text, line)?;
    }
    Ok(())
}

/// Writes the parameter.
fn write_param(text: &mut Vec<u8>, param: &Param) -> Result<(), AllocError>
    ensures { OnOk result (Prints (print_param (param_tree param.now)) text.old.items text.new.items) }
{
    write_specifier(text, &param.specifier)?;
    write_stars(text, param.stars)?;
    write_optional_name(text, &param.name)
}

/// Writes the parameters, each behind a comma.
fn write_more_params(text: &mut Vec<u8>, others: &[Param]) -> Result<(), AllocError>
    ensures { OnOk result (Prints (print_more print_param (map param_tree others.now)) text.old.items text.new.items) }
{
    for param in others {
        write_word(text, b",")?;
        write_param(text, param)?;
    }
    Ok(())
}

/// Writes what stands between the parentheses of a function's declarator.
fn write_params(text: &mut Vec<u8>, params: &Params) -> Result<(), AllocError>
    ensures { OnOk result (Prints (print_params (params_tree params.now)) text.old.items text.new.items) }
{
    match params {
        Params::Empty => Ok(()),
        Params::Void(_) => write_word(text, b"void"),
        Params::Listed(listed) => {
            write_param(text, &listed.first)?;
            write_more_params(text, &listed.others)
        }
    }
}

/// Writes what a function is called with, and what it answers.
pub fn write_head(text: &mut Vec<u8>, head: &Head) -> Result<(), AllocError>
    ensures { OnOk result (Prints (print_head (head_tree head.now)) text.old.items text.new.items) }
{
    write_specifier(text, &head.specifier)?;
    write_declarator(text, &head.declarator)?;
    write_word(text, b"(")?;
    write_params(text, &head.params)?;
    write_word(text, b")")
}
