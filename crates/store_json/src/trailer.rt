//! The trailer behind a text: a line feed, the text's hash in hexadecimal digits, a line feed.
ghost use Rattle.std.specs.Prelude.{◌≡◌, IfOk};
ghost use Rattle.std.specs.declared.option.Option.TheVariants.{None, Some};
ghost use Rattle.std.specs.Option.{option_copied};
ghost use Rattle.store_json.specs.Texts.{trailer_of, with_trailer};
ghost use Rattle.store_json.specs.Reading.{IsTextOf};

use sha2::{Digest, Sha256};
use std::alloc::{AllocError, Global};

/// The bytes of a trailer: 64 digits between two line feeds.
const TRAILER: usize = 66;

/// The trailer of a text.
fn trailer_of(alloc: Global, text: &[u8]) -> Result<Vec<u8>, AllocError>
    ensures { IfOk result (λ trailer. trailer.items ≡ trailer_of text.now) }
{
    let digits = hex::encode(alloc, Sha256::digest(text))?;
    let mut trailer = Vec::new(alloc);
    trailer.push(b'\n')?;
    trailer.extend_from_slice(digits.as_bytes())?;
    trailer.push(b'\n')?;
    Ok(trailer)
}

/// The text with its trailer.
pub fn with_trailer(alloc: Global, text: Vec<u8>) -> Result<Vec<u8>, AllocError>
    ensures { IfOk result (λ bytes. bytes.items ≡ with_trailer text.items) }
{
    let trailer = trailer_of(alloc, text.as_slice())?;
    let mut bytes = text;
    bytes.extend_from_slice(trailer.as_slice())?;
    Ok(bytes)
}

/// The text before its trailer; none where the bytes are no text with its trailer.
#[tactic(auto, using(crate::proofs::TrailerLemmas::no_text_found, crate::proofs::TrailerLemmas::text_found, crate::proofs::TrailerLemmas::too_short))]
pub fn without_trailer(alloc: Global, bytes: &[u8]) -> Result<Option<&[u8]>, AllocError>
    ensures { IfOk result (λ text. IsTextOf bytes.now (option_copied text)) }
{
    if bytes.len() < TRAILER {
        return Ok(None);
    }
    let (text, trailer) = bytes.split_at(bytes.len() - TRAILER);
    let right = trailer_of(alloc, text)?;
    if trailer == right.as_slice() {
        Ok(Some(text))
    } else {
        Ok(None)
    }
}
