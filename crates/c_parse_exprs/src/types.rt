//! Types, declarators, fields and parameters (C11 6.7).
ghost use Rattle.std.specs.Prelude.{◌≡◌, ◌≤◌, ◌<◌, length, map, option_map, IfOk};
ghost use Rattle.c_grammar.specs.declared.class.Class.TheVariants as class;
ghost use Rattle.c_grammar.specs.Spelling.{is_void_alone};
ghost use Rattle.c_grammar.specs.Readers as readers;
ghost use Rattle.c_grammar.specs.Readers.{begins_specifier, is_class};
ghost use Rattle.c_tree.specs.Syntax.{ident_tree, specifier_tree, declarator_tree, fields_tree, param_tree, params_tree};
ghost use Rattle.c_parse_exprs.specs.Reads.{Reads};

use crate::{Class, SyntaxFault, Words};
use c_tree::places::place_of_specifier;
use c_tree::{Declarator, FieldDecl, Ident, NonEmpty, Param, Params, TypeSpecifier};
use std::alloc::Global;

/// A name.
pub fn read_name(alloc: Global, words: &mut Words<'_>) -> Result<Ident, SyntaxFault>
    ensures value { Reads (readers.read_name words.old) ident_tree result words.new }
    ensures falls { IfOk result (λ _. length words.new < length words.old) }
    ensures stays { length words.new ≤ length words.old }
{
    let (place, text) = words.take_name(alloc)?;
    Ok(Ident { place, text })
}

/// A type specifier (C11 6.7.2).
#[tactic(auto, unfolding(c_grammar::specs::Readers::read_specifier))]
pub fn read_specifier(alloc: Global, words: &mut Words<'_>) -> Result<TypeSpecifier, SyntaxFault>
    ensures value { Reads (readers.read_specifier words.old) specifier_tree result words.new }
    ensures stays { length words.new ≤ length words.old }
{
    let place = words.place();
    match words.first_class() {
        Class::Int => {
            words.step();
            Ok(TypeSpecifier::Int(place))
        }
        Class::Void => {
            words.step();
            Ok(TypeSpecifier::Void(place))
        }
        Class::Struct => {
            words.step();
            Ok(TypeSpecifier::Struct(place, read_name(alloc, words)?))
        }
        Class::Name => Ok(TypeSpecifier::Alias(read_name(alloc, words)?)),
        _ => Err(words.wrong()),
    }
}

/// How many stars there are.
fn read_stars(words: &mut Words<'_>) -> usize
    ensures value { readers.read_stars (length words.old) words.old ≡ (result, words.new) }
    ensures stays { length words.new ≤ length words.old }
{
    let before = words.len();
    while words.eat(Class::Star) {}
    before - words.len()
}

/// Stars and a name (C11 6.7.6).
#[tactic(auto, unfolding(c_grammar::specs::Readers::read_declarator))]
pub fn read_declarator(alloc: Global, words: &mut Words<'_>) -> Result<Declarator, SyntaxFault>
    ensures value { Reads (readers.read_declarator words.old) declarator_tree result words.new }
    ensures falls { IfOk result (λ _. length words.new < length words.old) }
    ensures stays { length words.new ≤ length words.old }
{
    let stars = read_stars(words);
    Ok(Declarator {
        stars,
        name: read_name(alloc, words)?,
    })
}

/// More declarators, each behind a comma.
fn read_more_declarators(
    alloc: Global,
    words: &mut Words<'_>,
) -> Result<Vec<Declarator>, SyntaxFault>
    ensures value { Reads (readers.read_more (length words.old) readers.read_declarator words.old)
        (λ found. map declarator_tree found.items) result words.new }
    ensures stays { length words.new ≤ length words.old }
{
    let mut others = Vec::new(alloc);
    while words.eat(Class::Comma) {
        others.push(read_declarator(alloc, words)?)?;
    }
    Ok(others)
}

/// The fields of one declaration (C11 6.7.2.1).
#[tactic(auto, unfolding(c_grammar::specs::Readers::read_fields))]
fn read_fields(alloc: Global, words: &mut Words<'_>) -> Result<FieldDecl, SyntaxFault>
    ensures value { Reads (readers.read_fields words.old) fields_tree result words.new }
    ensures falls { IfOk result (λ _. length words.new < length words.old) }
    ensures stays { length words.new ≤ length words.old }
{
    let specifier = read_specifier(alloc, words)?;
    let first = read_declarator(alloc, words)?;
    let others = read_more_declarators(alloc, words)?;
    words.take(Class::Semicolon)?;
    Ok(FieldDecl {
        specifier,
        declarators: NonEmpty { first, others },
    })
}

/// The fields of a structure, in braces (C11 6.7.2.1).
#[tactic(auto, unfolding(c_grammar::specs::Readers::read_struct_body))]
pub fn read_struct_body(alloc: Global, words: &mut Words<'_>) -> Result<Vec<FieldDecl>, SyntaxFault>
    ensures value { Reads (readers.read_struct_body words.old) (λ found. map fields_tree found.items) result words.new }
    ensures stays { length words.new ≤ length words.old }
{
    words.take(Class::OpenBrace)?;
    let lines = read_lines(alloc, words)?;
    words.take(Class::CloseBrace)?;
    Ok(without_room(lines))
}

/// The declarations, with no room for more, since most structures are short.
fn without_room(lines: Vec<FieldDecl>) -> Vec<FieldDecl>
    ensures { result.items ≡ lines.items }
{
    let mut lines = lines;
    lines.shrink_to_fit();
    lines
}

/// Whether a type specifier begins with a word of the class.
pub fn begins_specifier(class: Class) -> bool
    ensures { result ≡ begins_specifier class }
{
    matches!(
        class,
        Class::Int | Class::Void | Class::Struct | Class::Name
    )
}

/// The declarations of fields.
fn read_lines(alloc: Global, words: &mut Words<'_>) -> Result<Vec<FieldDecl>, SyntaxFault>
    ensures value { Reads (readers.read_each (length words.old) begins_specifier readers.read_fields words.old)
        (λ found. map fields_tree found.items) result words.new }
    ensures stays { length words.new ≤ length words.old }
{
    let mut lines = Vec::new(alloc);
    while begins_specifier(words.first_class()) {
        lines.push(read_fields(alloc, words)?)?;
    }
    Ok(lines)
}

/// A name, if one stands there.
fn read_name_if_any(alloc: Global, words: &mut Words<'_>) -> Result<Option<Ident>, SyntaxFault>
    ensures value { Reads (readers.read_maybe (is_class class.Name) readers.read_name words.old) (option_map ident_tree) result words.new }
    ensures stays { length words.new ≤ length words.old }
{
    if words.sees(Class::Name) {
        Ok(Some(read_name(alloc, words)?))
    } else {
        Ok(None)
    }
}

/// A parameter (C11 6.7.6.3).
#[tactic(auto, unfolding(c_grammar::specs::Readers::read_param))]
fn read_param(alloc: Global, words: &mut Words<'_>) -> Result<Param, SyntaxFault>
    ensures value { Reads (readers.read_param words.old) param_tree result words.new }
    ensures stays { length words.new ≤ length words.old }
{
    let specifier = read_specifier(alloc, words)?;
    let stars = read_stars(words);
    Ok(Param {
        specifier,
        stars,
        name: read_name_if_any(alloc, words)?,
    })
}

/// More parameters, each behind a comma.
fn read_more_params(alloc: Global, words: &mut Words<'_>) -> Result<Vec<Param>, SyntaxFault>
    ensures value { Reads (readers.read_more (length words.old) readers.read_param words.old) (λ found. map param_tree found.items)
        result words.new }
    ensures stays { length words.new ≤ length words.old }
{
    let mut others = Vec::new(alloc);
    while words.eat(Class::Comma) {
        others.push(read_param(alloc, words)?)?;
    }
    Ok(others)
}

/// Whether the parameters are `void` alone, without stars and name.
fn is_void_alone(first: &Param, others: &[Param]) -> bool
    ensures { result ≡ is_void_alone (param_tree first.now) (map param_tree others.now) }
{
    matches!(first.specifier, TypeSpecifier::Void(_))
        && first.stars == 0
        && first.name.is_none()
        && others.is_empty()
}

/// What stands between the parentheses of a function's declarator (C11 6.7.6.3).
#[tactic(auto, unfolding(c_grammar::specs::Readers::read_params))]
pub fn read_params(alloc: Global, words: &mut Words<'_>) -> Result<Params, SyntaxFault>
    ensures value { Reads (readers.read_params words.old) params_tree result words.new }
    ensures stays { length words.new ≤ length words.old }
{
    if !begins_specifier(words.first_class()) {
        return Ok(Params::Empty);
    }
    let first = read_param(alloc, words)?;
    let others = read_more_params(alloc, words)?;
    if is_void_alone(&first, others.as_slice()) {
        Ok(Params::Void(place_of_specifier(&first.specifier)))
    } else {
        Ok(Params::Listed(NonEmpty { first, others }))
    }
}
