//! Words: what each function here writes goes behind the text that is there. Where memory wants, what is left is not said.
ghost use Rattle.std.specs.Prelude.{◌∷◌, OnOk};
ghost use Rattle.std.specs.Fmt.{decimal};
ghost use Rattle.c_grammar.specs.Printing.{print_name, print_stars, print_maybe};
ghost use Rattle.c_print.specs.Writing.{Prints, print_comma};
ghost use Rattle.c_tree.specs.Syntax.{ident_tree};
ghost use Rattle.std.specs.Prelude.{option_map};

use c_tree::Ident;
use itoa::Buffer;
use std::alloc::AllocError;

/// Writes the word and a space behind it.
pub fn write_word(text: &mut Vec<u8>, word: &[u8]) -> Result<(), AllocError>
    ensures { OnOk result (Prints (λ behind. word.now ∷ behind) text.old.items text.new.items) }
{
    text.extend_from_slice(word)?;
    text.extend_from_slice(b" ")
}

/// Writes the name.
pub fn write_name(text: &mut Vec<u8>, name: &Ident) -> Result<(), AllocError>
    ensures { OnOk result (Prints (print_name (ident_tree name.now)) text.old.items text.new.items) }
{
    write_word(text, name.text.as_bytes())
}

/// Writes the name, if there is one.
pub fn write_optional_name(text: &mut Vec<u8>, name: &Option<Ident>) -> Result<(), AllocError>
    ensures { OnOk result (Prints (print_maybe print_name (option_map ident_tree name.now)) text.old.items text.new.items) }
{
    match name {
        None => Ok(()),
        Some(name) => write_name(text, name),
    }
}

/// Writes the number in decimal.
pub fn write_number(text: &mut Vec<u8>, value: u32) -> Result<(), AllocError>
    ensures { OnOk result (Prints (λ behind. decimal value ∷ behind) text.old.items text.new.items) }
{
    write_word(text, Buffer::new().format(value).as_bytes())
}

/// Writes so many stars.
pub fn write_stars(text: &mut Vec<u8>, stars: usize) -> Result<(), AllocError>
    ensures { OnOk result (Prints (print_stars stars) text.old.items text.new.items) }
{
    for _ in 0..stars {
        write_word(text, b"*")?;
    }
    Ok(())
}

/// Writes the comma before each but the first of a list.
pub fn write_comma(text: &mut Vec<u8>, place: usize) -> Result<(), AllocError>
    ensures { OnOk result (Prints (print_comma place) text.old.items text.new.items) }
{
    if place == 0 {
        return Ok(());
    }
    write_word(text, b",")
}
