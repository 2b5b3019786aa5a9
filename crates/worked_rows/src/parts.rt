//! The parts of a row, with ` ; ` between them: a word, and the text behind it; and the number that a word is.
use crate::fault::Fault;

/// The text behind a word, if the part is of it.
fn behind<'a>(part: &'a str, word: &str) -> Option<&'a str> {
    let text = part.strip_prefix(word)?;
    if text.is_empty() || text.starts_with(' ') {
        Some(text.trim())
    } else {
        None
    }
}

/// The text of the part with this word, if the row has it.
pub fn part<'a>(row: &'a str, word: &str) -> Option<&'a str> {
    for part in row.split(';') {
        if let Some(text) = behind(part.trim(), word) {
            return Some(text);
        }
    }
    None
}

/// The text of the part with this word; where the row has none, `emp`, the text of no heap.
pub fn text<'a>(row: &'a str, word: &str) -> &'a str {
    part(row, word).unwrap_or("emp")
}

/// The first word of a text, and the text behind it.
pub fn first_word(text: &str) -> (&str, &str) {
    let text = text.trim();
    match text.split_once(' ') {
        Some((word, behind)) => (word, behind.trim()),
        None => (text, ""),
    }
}

/// Whether each part of the row begins with one of these words.
pub fn has_only(row: &str, words: &[&str]) -> bool {
    for part in row.split(';') {
        let (word, _) = first_word(part);
        if !words.iter().any(|one| *one == word) {
            return false;
        }
    }
    true
}

/// The number that a word is, in decimal digits.
pub fn number_of(word: &str) -> Result<u32, Fault> {
    word.parse().ok().ok_or(Fault::Row)
}
