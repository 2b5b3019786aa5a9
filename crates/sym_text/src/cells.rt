//! Reads cells and list segments.
ghost use Rattle.std.specs.Prelude.{◌≡◌, ◌≤◌, ◌<◌, [], true, length, map, IfOk, IfErr, Some};
ghost use Rattle.shape_data.specs.Heap.{struct_named};
ghost use Rattle.shape_data.specs.WellFormed.{AreStructs};
ghost use Rattle.std.specs.Option.{option_copied};
ghost use Rattle.sym_text.specs.Outcome.{Got, IsStop};
ghost use Rattle.sym_text.specs.Reading.{
  has_some,
  is_one_of,
  kinds,
  linked,
  reach,
  read_field,
  read_word,
  read_fields,
  read_link,
  read_cell,
  read_segment,
};
ghost use Rattle.sym_text.specs.Text.{field_names};
ghost use Rattle.sym_text.specs.declared.parts.Part.TheVariants as part;
ghost use Rattle.shape_data.specs.declared.symbolic.Atom.TheVariants.{Seg};

use crate::exps::{ReadExp, read_exp};
use crate::fault::Fault;
use crate::parts::{Part, ReadPart};
use crate::words::{Word, front_name, further, place_of, read_literal, read_word, refused_behind};
use shape_data::program::{Field, StructDef};
use shape_data::symbolic::{Atom, Exp};
use shape_data::{Name, Row};
use std::alloc::Global;

/// The structure with the name.
fn struct_at<'a>(structs: &'a [StructDef], name: &[u8]) -> Option<&'a StructDef>
    ensures { option_copied result ≡ struct_named structs.now name.now }
{
    structs.iter().find(|def| *def.name.as_bytes() == *name)
}

/// Whether a structure with a field has the name.
fn is_linked(structs: &[StructDef], name: &[u8]) -> bool
    ensures { result ≡ is_one_of (linked structs.now) name.now }
{
    for def in structs {
        if !def.fields.is_empty() && *def.name.as_bytes() == *name {
            return true;
        }
    }
    false
}

/// Whether some structure has a field.
pub fn has_linked(structs: &[StructDef]) -> bool
    ensures { result ≡ has_some (linked structs.now) }
{
    for def in structs {
        if !def.fields.is_empty() {
            return true;
        }
    }
    false
}

/// How far the name of some structure with a field goes.
fn reach_linked(structs: &[StructDef], text: &[u8]) -> usize
    ensures value { result ≡ reach (linked structs.now) text.now }
    ensures within { result ≤ length text.now }
{
    let mut reached = 0;
    for def in structs {
        if !def.fields.is_empty() {
            reached = further(reached, def.name.as_bytes(), text);
        }
    }
    reached
}

/// Reads the name of a structure with a field.
fn read_linked<'a>(structs: &[StructDef], text: &'a [u8]) -> Result<Word<'a>, Fault>
    ensures ok { IfOk result (λ read. read_word (linked structs.now) text.now ≡ Got read.0.now read.1.now) }
    ensures one { IfOk result (λ read. is_one_of (linked structs.now) read.0.now ≡ true) }
    ensures err { IfErr result (λ fault. IsStop fault (read_word (linked structs.now) text.now)) }
{
    let (name, rest) = front_name(text);
    if is_linked(structs, name) {
        Ok((name, rest))
    } else {
        Err(refused_behind(text, reach_linked(structs, text)))
    }
}

/// Reads the separator, the name of the field, `:` and its value.
#[tactic(auto, unfolding(crate::specs::Reading::read_field, crate::specs::Outcome::go_on))]
fn read_field<'a>(
    params: &[Name],
    separator: &[u8],
    field: &Field,
    text: &'a [u8],
) -> Result<ReadExp<'a>, Fault>
    requires { length params.now ≤ 32768 }
    ensures ok { IfOk result (λ read. read_field params.now separator.now field.now.name text.now ≡ Got read.0 read.1.now) }
    ensures err { IfErr result (λ fault. IsStop fault (read_field params.now separator.now field.now.name text.now)) }
{
    let rest = read_literal(separator, text)?;
    let rest = read_literal(field.name.as_bytes(), rest)?;
    let rest = read_literal(b":", rest)?;
    read_exp(params, rest)
}

/// Values of fields, and the text behind them.
type ReadValues<'a> = (Row<Exp>, &'a [u8]);

/// Reads the values of these fields, and `)`.
#[tactic(auto, unfolding(crate::specs::Reading::read_fields, crate::specs::Outcome::go_on))]
fn read_fields<'a>(
    alloc: Global,
    params: &[Name],
    fields: &[Field],
    text: &'a [u8],
) -> Result<ReadValues<'a>, Fault>
    requires { length params.now ≤ 32768 }
    ensures ok { IfOk result (λ read. read_fields params.now [] (map (λ field. field.name) fields.now) [] text.now
        ≡ Got read.0 read.1.now) }
    ensures err { IfErr result (λ fault. IsStop fault (read_fields params.now [] (map (λ field. field.name) fields.now) [] text.now)) }
{
    let mut values = Row::new(alloc);
    let mut separator: &[u8] = b"";
    let mut rest = text;
    for field in fields {
        let (value, behind) = read_field(params, separator, field, rest)?;
        values.push(value)?;
        separator = b",";
        rest = behind;
    }
    let rest = read_literal(b")", rest)?;
    Ok((values, rest))
}

/// Reads the name of a structure, and gives the structure.
fn read_kind<'a>(
    structs: &'a [StructDef],
    text: &'a [u8],
) -> Result<(&'a StructDef, &'a [u8]), Fault>
    ensures ok { IfOk result (λ read. read_word (kinds structs.now) text.now ≡ Got read.0.now.name read.1.now) }
    ensures named { IfOk result (λ read. struct_named structs.now read.0.now.name ≡ Some read.0.now) }
    ensures fields { IfOk result (λ read. field_names structs.now read.0.now.name ≡ map (λ field. field.name) read.0.now.fields) }
    ensures err { IfErr result (λ fault. IsStop fault (read_word (kinds structs.now) text.now)) }
{
    let (name, rest) = read_word(structs, text)?;
    match struct_at(structs, name) {
        Some(def) => Ok((def, rest)),
        None => unreachable!(),
    }
}

/// Reads the name of a structure with a field, and gives the structure.
fn read_linked_kind<'a>(
    structs: &'a [StructDef],
    text: &'a [u8],
) -> Result<(&'a StructDef, &'a [u8]), Fault>
    ensures ok { IfOk result (λ read. read_word (linked structs.now) text.now ≡ Got read.0.now.name read.1.now) }
    ensures named { IfOk result (λ read. struct_named structs.now read.0.now.name ≡ Some read.0.now) }
    ensures fields { IfOk result (λ read. field_names structs.now read.0.now.name ≡ map (λ field. field.name) read.0.now.fields) }
    ensures err { IfErr result (λ fault. IsStop fault (read_word (linked structs.now) text.now)) }
{
    let (name, rest) = read_linked(structs, text)?;
    match struct_at(structs, name) {
        Some(def) => Ok((def, rest)),
        None => unreachable!(),
    }
}

/// Reads a cell, behind its address.
#[tactic(auto, unfolding(crate::specs::Reading::read_cell, crate::specs::Outcome::go_on))]
pub fn read_cell<'a>(
    alloc: Global,
    structs: &'a [StructDef],
    params: &[Name],
    at: Exp,
    text: &'a [u8],
) -> Result<ReadPart<'a>, Fault>
    requires { length params.now ≤ 32768 }
    ensures ok { IfOk result (λ read. read_cell structs.now params.now at text.now ≡ Got read.0 read.1.now) }
    ensures err { IfErr result (λ fault. IsStop fault (read_cell structs.now params.now at text.now)) }
{
    let rest = read_literal(b"|->", text)?;
    let (def, rest) = read_kind(structs, rest)?;
    let rest = read_literal(b"(", rest)?;
    let (fields, rest) = read_fields(alloc, params, def.fields.as_slice(), rest)?;
    let kind = def.name.clone()?;
    Ok((Part::Atom(Atom::Points { at, kind, fields }), rest))
}

/// The place of a field, and the text behind its name.
type ReadLink<'a> = (u32, &'a [u8]);

/// Reads the name of a field.
#[tactic(auto, unfolding(crate::specs::Reading::read_link, crate::specs::Outcome::go_on))]
fn read_link<'a>(fields: &[Field], text: &'a [u8]) -> Result<ReadLink<'a>, Fault>
    requires { length fields.now ≤ 32768 }
    ensures ok { IfOk result (λ read. read_link (map (λ field. field.name) fields.now) text.now ≡ Got read.0 read.1.now) }
    ensures err { IfErr result (λ fault. IsStop fault (read_link (map (λ field. field.name) fields.now) text.now)) }
{
    let (link, rest) = read_word(fields, text)?;
    Ok((place_of(fields, link) as u32, rest))
}

/// A segment's structure, the place of its link and its two ends, and the text behind it.
pub type ReadSegment<'a> = (&'a Name, u32, Exp, Exp, &'a [u8]);

/// Reads a list segment, behind `ls`.
#[tactic(auto, unfolding(crate::specs::Reading::read_segment, crate::specs::Outcome::go_on))]
pub fn read_segment<'a>(
    structs: &'a [StructDef],
    params: &[Name],
    text: &'a [u8],
) -> Result<ReadSegment<'a>, Fault>
    requires few { length params.now ≤ 32768 }
    requires structs { AreStructs structs.now }
    ensures ok { IfOk result (λ read. read_segment structs.now params.now text.now
        ≡ Got (part.Atom (Seg read.0.now read.1 read.2 read.3)) read.4.now) }
    ensures err { IfErr result (λ fault. IsStop fault (read_segment structs.now params.now text.now)) }
{
    let rest = read_literal(b"[", text)?;
    let (def, rest) = read_linked_kind(structs, rest)?;
    let rest = read_literal(b".", rest)?;
    let (link, rest) = read_link(def.fields.as_slice(), rest)?;
    let rest = read_literal(b"](", rest)?;
    let (source, rest) = read_exp(params, rest)?;
    let rest = read_literal(b",", rest)?;
    let (target, rest) = read_exp(params, rest)?;
    let rest = read_literal(b")", rest)?;
    Ok((&def.name, link, source, target, rest))
}
