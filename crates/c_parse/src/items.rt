//! What a file declares (C11 6.9).
ghost use Rattle.std.specs.Prelude.{◌≡◌, ◌≤◌, ◌<◌, length, map, option_map, IfOk, true};
ghost use Rattle.c_grammar.specs.Readers as readers;
ghost use Rattle.c_grammar.specs.Readers.{class_at};
ghost use Rattle.c_grammar.specs.declared.class.Class.TheVariants as class;
ghost use Rattle.c_tree.specs.Syntax.{ident_tree, specifier_tree, head_tree, item_tree};
ghost use Rattle.c_parse_exprs.specs.Reads.{Reads};

use crate::stmts::read_block;
use c_parse_exprs::types::{read_declarator, read_name, read_params, read_struct_body};
use c_parse_exprs::{Class, SyntaxFault, Words};
use c_tree::{Head, Ident, Item, Place, TypeSpecifier};
use std::alloc::Global;

/// Whether an item may begin with a word of the class.
fn begins_item(class: Class) -> bool
    ensures { result ≡ readers.begins_item class }
{
    matches!(
        class,
        Class::Struct | Class::Typedef | Class::Int | Class::Void | Class::Name
    )
}

/// The body of a definition, from its `{` on (C11 6.9.1).
fn read_definition(
    alloc: Global,
    levels: u32,
    head: Head,
    words: &mut Words<'_>,
) -> Result<Item, SyntaxFault>
    ensures value { Reads (readers.read_definition levels (head_tree head) words.old) item_tree result words.new }
    ensures stays { length words.new ≤ length words.old }
{
    if levels == 0 {
        return Err(words.too_deep());
    }
    let body = read_block(alloc, levels - 1, words)?;
    Ok(Item::Definition(head, body))
}

/// What stands behind the head of a function.
fn read_item_end(
    alloc: Global,
    levels: u32,
    head: Head,
    words: &mut Words<'_>,
) -> Result<Item, SyntaxFault>
    ensures value { Reads (readers.item_end_by (class_at words.old) levels (head_tree head) words.old) item_tree result words.new }
    ensures stays { length words.new ≤ length words.old }
{
    match words.first_class() {
        Class::Semicolon => {
            words.step();
            Ok(Item::Prototype(head))
        }
        Class::OpenBrace => read_definition(alloc, levels, head, words),
        _ => Err(words.wrong()),
    }
}

/// A function, behind the type that it answers (C11 6.7.6.3, 6.9.1).
#[tactic(auto, unfolding(c_grammar::specs::Readers::read_headed))]
fn read_headed(
    alloc: Global,
    levels: u32,
    specifier: TypeSpecifier,
    words: &mut Words<'_>,
) -> Result<Item, SyntaxFault>
    ensures value { Reads (readers.read_headed levels (specifier_tree specifier) words.old) item_tree result words.new }
    ensures falls { IfOk result (λ _. length words.new < length words.old) }
    ensures stays { length words.new ≤ length words.old }
{
    let declarator = read_declarator(alloc, words)?;
    words.take_open()?;
    let params = read_params(alloc, words)?;
    words.take(Class::Close)?;
    let head = Head {
        specifier,
        declarator,
        params,
    };
    read_item_end(alloc, levels, head, words)
}

/// The fields of a structure behind its tag (C11 6.7.2.1).
fn read_struct(
    alloc: Global,
    place: Place,
    tag: Ident,
    words: &mut Words<'_>,
) -> Result<Item, SyntaxFault>
    ensures value { Reads (readers.struct_by true 0 place (ident_tree tag) words.old) item_tree result words.new }
    ensures falls { IfOk result (λ _. length words.new < length words.old) }
    ensures stays { length words.new ≤ length words.old }
{
    let fields = read_struct_body(alloc, words)?;
    words.take(Class::Semicolon)?;
    Ok(Item::Struct { place, tag, fields })
}

/// A structure, or a function that answers a pointer to one.
fn read_struct_item(alloc: Global, levels: u32, words: &mut Words<'_>) -> Result<Item, SyntaxFault>
    ensures value { Reads (readers.item_by class.Struct levels words.old) item_tree result words.new }
    ensures falls { IfOk result (λ _. length words.new < length words.old) }
    ensures stays { length words.new ≤ length words.old }
{
    let place = words.place();
    words.step();
    let tag = read_name(alloc, words)?;
    if words.sees(Class::OpenBrace) {
        read_struct(alloc, place, tag, words)
    } else {
        read_headed(alloc, levels, TypeSpecifier::Struct(place, tag), words)
    }
}

/// A `typedef` with fields, from its `{` on (C11 6.7.8).
fn read_typedef_struct(
    alloc: Global,
    place: Place,
    tag: Option<Ident>,
    words: &mut Words<'_>,
) -> Result<Item, SyntaxFault>
    ensures value { Reads (readers.read_typedef_struct place (option_map ident_tree tag) words.old) item_tree result words.new }
    ensures falls { IfOk result (λ _. length words.new < length words.old) }
    ensures stays { length words.new ≤ length words.old }
{
    let fields = read_struct_body(alloc, words)?;
    let alias = read_name(alloc, words)?;
    words.take(Class::Semicolon)?;
    Ok(Item::TypedefStruct {
        place,
        tag,
        fields,
        alias,
    })
}

/// A `typedef` without fields, behind the tag (C11 6.7.8).
fn read_typedef_alias(
    alloc: Global,
    place: Place,
    tag: Ident,
    words: &mut Words<'_>,
) -> Result<Item, SyntaxFault>
    ensures value { Reads (readers.read_typedef_alias place (ident_tree tag) words.old) item_tree result words.new }
    ensures falls { IfOk result (λ _. length words.new < length words.old) }
    ensures stays { length words.new ≤ length words.old }
{
    let alias = read_name(alloc, words)?;
    words.take(Class::Semicolon)?;
    Ok(Item::TypedefAlias { place, tag, alias })
}

/// A `typedef` (C11 6.7.8).
#[tactic(auto, unfolding(c_grammar::specs::Readers::read_typedef))]
fn read_typedef(alloc: Global, words: &mut Words<'_>) -> Result<Item, SyntaxFault>
    ensures value { Reads (readers.read_typedef words.old) item_tree result words.new }
    ensures falls { IfOk result (λ _. length words.new < length words.old) }
    ensures stays { length words.new ≤ length words.old }
{
    let place = words.place();
    words.step();
    words.take(Class::Struct)?;
    if words.sees(Class::OpenBrace) {
        return read_typedef_struct(alloc, place, None, words);
    }
    let tag = read_name(alloc, words)?;
    if words.sees(Class::OpenBrace) {
        read_typedef_struct(alloc, place, Some(tag), words)
    } else {
        read_typedef_alias(alloc, place, tag, words)
    }
}

/// An item (C11 6.9).
#[tactic(auto, unfolding(c_grammar::specs::Readers::read_item))]
fn read_item(alloc: Global, levels: u32, words: &mut Words<'_>) -> Result<Item, SyntaxFault>
    ensures value { Reads (readers.read_item levels words.old) item_tree result words.new }
    ensures falls { IfOk result (λ _. length words.new < length words.old) }
    ensures stays { length words.new ≤ length words.old }
{
    let place = words.place();
    match words.first_class() {
        Class::Struct => read_struct_item(alloc, levels, words),
        Class::Typedef => read_typedef(alloc, words),
        Class::Int => {
            words.step();
            read_headed(alloc, levels, TypeSpecifier::Int(place), words)
        }
        Class::Void => {
            words.step();
            read_headed(alloc, levels, TypeSpecifier::Void(place), words)
        }
        Class::Name => {
            let alias = read_name(alloc, words)?;
            read_headed(alloc, levels, TypeSpecifier::Alias(alias), words)
        }
        _ => Err(words.wrong()),
    }
}

/// Items, as long as one begins.
pub fn read_items(
    alloc: Global,
    levels: u32,
    words: &mut Words<'_>,
) -> Result<Vec<Item>, SyntaxFault>
    ensures value { Reads (readers.read_each (length words.old) readers.begins_item (readers.read_item levels) words.old)
        (λ found. map item_tree found.items) result words.new }
    ensures stays { length words.new ≤ length words.old }
{
    let mut items = Vec::new(alloc);
    'each: while begins_item(words.first_class()) {
        items.push(read_item(alloc, levels, words)?)?;
    }
    Ok(items)
}
