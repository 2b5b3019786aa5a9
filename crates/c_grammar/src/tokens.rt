//! Cuts a C text into tokens. Which tokens a text has, or where and why it has none, is said in `specs/Tokens/Grammar`;
//! the tokenizer gives exactly that, by the middle layer of `specs/Tokens/Reading`.

mod comments;
mod fault;
pub mod laws;
mod pieces;
mod places;
mod reading;
mod token;
mod words;

pub use fault::ReadFault;
pub use places::{Place, Refusal};
pub use reading::tokens;
pub use token::{Lexeme, Token, TokenFault, TokenKind};
pub use words::{digits_value, is_reserved};
