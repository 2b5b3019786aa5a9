//! What a file declares, and the whole file (C11 6.9).
ghost use Rattle.std.specs.Prelude.{◌≡◌, IfOk, OnOk, map};
ghost use Rattle.c_grammar.specs.Printing.{print_each, print_item, printed_text};
ghost use Rattle.c_print.specs.Writing.{Prints};
ghost use Rattle.c_tree.specs.Syntax.{item_tree, unit_tree};

use crate::statements::write_block;
use crate::types::{write_head, write_struct_body};
use crate::words::{write_name, write_optional_name, write_word};
use c_tree::{Item, Unit};
use std::alloc::{AllocError, Global};

/// Writes the declaration or definition.
fn write_item(text: &mut Vec<u8>, item: &Item) -> Result<(), AllocError>
    ensures { OnOk result (Prints (print_item (item_tree item.now)) text.old.items text.new.items) }
{
    match item {
        Item::Struct { tag, fields, .. } => {
            write_word(text, b"struct")?;
            write_name(text, tag)?;
            write_struct_body(text, fields)?;
            write_word(text, b";")
        }
        Item::TypedefStruct {
            tag,
            fields,
            alias,
            ..
        } => {
            write_word(text, b"typedef")?;
            write_word(text, b"struct")?;
            write_optional_name(text, tag)?;
            write_struct_body(text, fields)?;
            write_name(text, alias)?;
            write_word(text, b";")
        }
        Item::TypedefAlias { tag, alias, .. } => {
            write_word(text, b"typedef")?;
            write_word(text, b"struct")?;
            write_name(text, tag)?;
            write_name(text, alias)?;
            write_word(text, b";")
        }
        Item::Prototype(head) => {
            write_head(text, head)?;
            write_word(text, b";")
        }
        Item::Definition(head, body) => {
            write_head(text, head)?;
            write_block(text, body)
        }
    }
}

/// Writes the items, one behind another.
fn write_items(text: &mut Vec<u8>, items: &[Item]) -> Result<(), AllocError>
    ensures { OnOk result (Prints (print_each print_item (map item_tree items.now)) text.old.items text.new.items) }
{
    for item in items {
        write_item(text, item)?;
    }
    Ok(())
}

/// The text of the file: its words, each with a space behind it.
///
/// With `c_grammar::laws::round_trip` this is printing that reads back: where tokens spell the file, the text has
/// tokens that spell the same file, up to places, within the same levels of nesting. By `c_grammar::laws::one_tree`
/// they spell no other.
pub fn print(alloc: Global, unit: &Unit) -> Result<Vec<u8>, AllocError>
    ensures { IfOk result (λ text. text.items ≡ printed_text (unit_tree unit.now)) }
{
    let mut text = Vec::new(alloc);
    write_items(&mut text, &unit.items)?;
    Ok(text)
}
