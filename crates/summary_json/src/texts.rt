//! Expressions, symbolic heaps and posts: strings with their texts.
ghost use Rattle.std.specs.Prelude.{◌≡◌, ◌≤◌, ◌++◌, codes, length, Some, IfOk, IfErr, IsUtf8};
ghost use Rattle.serde_json.specs.Data.{string};
ghost use Rattle.serde_json.specs.View.{view};
ghost use Rattle.shape_data.specs.WellFormed.{AreParams, AreStructs};
ghost use Rattle.sym_text.specs.Reading.{read_whole_heap, read_whole_post};
ghost use Rattle.sym_text.specs.Text.{exp_text};
ghost use Rattle.flow_json.specs.Unread.{IsUnread};
ghost use Rattle.summary_json.specs.UnreadTexts.{unread_of};
ghost use Rattle.summary_json.specs.Texts.{all_of, exp_of_text, short_string};

use crate::scoped::Scoped;
use flow_json::Unread;
use flow_json::values::text;
use serde_json::Value;
use shape_data::Name;
use shape_data::program::StructDef;
use shape_data::symbolic::{Exp, Post, SymHeap};
use std::alloc::{AllocError, Global};
use sym_text::laws::well_formed_is_shaped;
use sym_text::{BadSpec, print_heap, print_post, push_exp, read_heap, read_post};

/// The most bytes of the text of a heap or a post.
const MOST_OF_HEAP: usize = 4_294_967_295;

/// The most bytes of the text of an expression.
const MOST_OF_EXP: usize = 64;

/// The string of a text.
fn text_value(alloc: Global, bytes: &[u8]) -> Result<Value, AllocError>
    requires { IsUtf8 bytes.now }
    ensures { IfOk result (λ value. view value ≡ string bytes.now) }
{
    match std::str::from_utf8(bytes) {
        Ok(word) => Value::try_from_str(alloc, word),
        Err(_) => unreachable!(),
    }
}

/// The text of a string of at most so many bytes.
#[tactic(auto, unfolding(flow_json::specs::Forms::go_on))]
fn short_text(value: &Value, most: usize) -> Result<&[u8], Unread>
    ensures ok { IfOk result (λ word. short_string most (view value.now) ≡ Some word.now) }
    ensures short { IfOk result (λ word. length word.now ≤ most) }
    ensures err { IfErr result (λ fault. IsUnread fault (short_string most (view value.now))) }
{
    let bytes = text(value)?.as_bytes();
    if bytes.len() <= most {
        Ok(bytes)
    } else {
        Err(Unread::NotOfForm)
    }
}

/// Why a string is not read whose text is not.
fn unread_of(bad: BadSpec) -> Unread
    ensures { result ≡ unread_of bad }
{
    match bad {
        BadSpec::At { .. } => Unread::NotOfForm,
        BadSpec::OutOfMemory => Unread::OutOfMemory,
    }
}

/// The heap of a text, if all of the text is one.
#[tactic(auto, using(crate::proofs::TextLemmas::heap_is_read, crate::proofs::TextLemmas::no_heap_is_read))]
fn heap_of_text(
    alloc: Global,
    structs: &[StructDef],
    params: &[Name],
    bytes: &[u8],
) -> Result<SymHeap, Unread>
    requires structs { AreStructs structs.now }
    requires params { AreParams params.now }
    requires short { length bytes.now ≤ 4294967295 }
    ensures ok { IfOk result (λ heap. all_of (read_whole_heap structs.now params.now bytes.now) ≡ Some heap) }
    ensures err { IfErr result (λ fault. IsUnread fault (all_of (read_whole_heap structs.now params.now bytes.now))) }
{
    match read_heap(alloc, bytes, params, structs) {
        Ok(heap) => Ok(heap),
        Err(bad) => Err(unread_of(bad)),
    }
}

/// The post of a text, if all of the text is one with its result.
#[tactic(auto, using(crate::proofs::TextLemmas::post_is_read, crate::proofs::TextLemmas::no_post_is_read))]
fn post_of_text(
    alloc: Global,
    structs: &[StructDef],
    params: &[Name],
    bytes: &[u8],
) -> Result<Post, Unread>
    requires structs { AreStructs structs.now }
    requires params { AreParams params.now }
    requires short { length bytes.now ≤ 4294967295 }
    ensures ok { IfOk result (λ post. all_of (read_whole_post structs.now params.now bytes.now) ≡ Some post) }
    ensures err { IfErr result (λ fault. IsUnread fault (all_of (read_whole_post structs.now params.now bytes.now))) }
{
    match read_post(alloc, bytes, params, structs) {
        Ok(post) => Ok(post),
        Err(bad) => Err(unread_of(bad)),
    }
}

/// The text of an expression.
fn exp_bytes(alloc: Global, params: &[Name], exp: Exp) -> Result<Vec<u8>, AllocError>
    ensures { IfOk result (λ text. text.items ≡ exp_text params.now exp) }
{
    let mut text = Vec::new(alloc);
    push_exp(&mut text, params, exp)?;
    Ok(text)
}

/// The text of the post that has nothing but a result.
fn bare_post(alloc: Global, bytes: &[u8]) -> Result<Vec<u8>, AllocError>
    ensures { IfOk result (λ text. text.items ≡ codes "emp ret=" ++ bytes.now) }
{
    let mut text = Vec::new(alloc);
    text.extend_from_slice(b"emp ret=")?;
    text.extend_from_slice(bytes)?;
    Ok(text)
}

/// The expression of a text, if all of the text is one: the result of the post that has nothing else.
#[tactic(auto, using(crate::proofs::TextLemmas::no_structs, crate::proofs::TextLemmas::exp_is_read, crate::proofs::TextLemmas::no_exp_is_read))]
fn exp_of_text(alloc: Global, params: &[Name], bytes: &[u8]) -> Result<Exp, Unread>
    requires params { AreParams params.now }
    requires short { length bytes.now ≤ 64 }
    ensures ok { IfOk result (λ exp. exp_of_text params.now bytes.now ≡ Some exp) }
    ensures err { IfErr result (λ fault. IsUnread fault (exp_of_text params.now bytes.now)) }
{
    let text = bare_post(alloc, bytes)?;
    match read_post(alloc, text.as_slice(), params, &[]) {
        Ok(post) => Ok(post.ret),
        Err(bad) => Err(unread_of(bad)),
    }
}

impl Scoped for Exp {
    ghost use Rattle.std.specs.Prelude.{length};
    ghost use Rattle.shape_data.specs.WellFormed.{storable, IsExp};
    ghost use Rattle.summary_json.specs.Texts.{exp_data, read_exp_data};

    ghost written = { λ structs params. exp_data params };

    ghost reader = { λ structs params. read_exp_data params };

    ghost fits = { λ structs params. IsExp storable (length params) };

    #[tactic(auto, using(crate::proofs::PlainTexts::exp_is_utf8))]
    fn to_value(
        &self,
        alloc: Global,
        _structs: &[StructDef],
        params: &[Name],
    ) -> Result<Value, AllocError> {
        let text = exp_bytes(alloc, params, *self)?;
        text_value(alloc, text.as_slice())
    }

    #[tactic(auto, unfolding(flow_json::specs::Forms::go_on))]
    fn of_value(
        alloc: Global,
        _structs: &[StructDef],
        params: &[Name],
        value: &Value,
    ) -> Result<Exp, Unread> {
        exp_of_text(alloc, params, short_text(value, MOST_OF_EXP)?)
    }
}

impl Scoped for SymHeap {
    ghost use Rattle.std.specs.Prelude.{length};
    ghost use Rattle.shape_data.specs.WellFormed.{storable, IsSymHeap};
    ghost use Rattle.summary_json.specs.Texts.{heap_data, read_heap};

    ghost written = { heap_data };

    ghost reader = { read_heap };

    ghost fits = { λ structs params. IsSymHeap storable structs (length params) };

    #[tactic(auto, using(crate::proofs::PlainTexts::heap_is_utf8))]
    fn to_value(
        &self,
        alloc: Global,
        structs: &[StructDef],
        params: &[Name],
    ) -> Result<Value, AllocError> {
        well_formed_is_shaped();
        let text = print_heap(alloc, self, params, structs)?;
        text_value(alloc, text.as_slice())
    }

    #[tactic(auto, unfolding(flow_json::specs::Forms::go_on))]
    fn of_value(
        alloc: Global,
        structs: &[StructDef],
        params: &[Name],
        value: &Value,
    ) -> Result<SymHeap, Unread> {
        heap_of_text(alloc, structs, params, short_text(value, MOST_OF_HEAP)?)
    }
}

impl Scoped for Post {
    ghost use Rattle.std.specs.Prelude.{length};
    ghost use Rattle.shape_data.specs.WellFormed.{storable, IsPost};
    ghost use Rattle.summary_json.specs.Texts.{post_data, read_post};

    ghost written = { post_data };

    ghost reader = { read_post };

    ghost fits = { λ structs params. IsPost storable structs (length params) };

    #[tactic(auto, using(crate::proofs::PlainTexts::post_is_utf8))]
    fn to_value(
        &self,
        alloc: Global,
        structs: &[StructDef],
        params: &[Name],
    ) -> Result<Value, AllocError> {
        well_formed_is_shaped();
        let text = print_post(alloc, self, params, structs, true)?;
        text_value(alloc, text.as_slice())
    }

    #[tactic(auto, unfolding(flow_json::specs::Forms::go_on))]
    fn of_value(
        alloc: Global,
        structs: &[StructDef],
        params: &[Name],
        value: &Value,
    ) -> Result<Post, Unread> {
        post_of_text(alloc, structs, params, short_text(value, MOST_OF_HEAP)?)
    }
}
