//! The parser's one public call.
ghost use Rattle.std.specs.Prelude.{◌≡◌, ◌≤◌, IfOk, IfErr, Ok};
ghost use Rattle.c_grammar.specs.Tokens.TokenLists.{IsTokenList};
ghost use Rattle.c_grammar.specs.declared.tokens.fault.ReadFault.TheVariants.{OutOfMemory};
ghost use Rattle.c_grammar.specs.Nesting.{file_nesting};
ghost use Rattle.c_grammar.specs.Readers as readers;
ghost use Rattle.c_grammar.specs.Refusals.{MOST_LEVELS};
ghost use Rattle.c_grammar.specs.Spelling.{Spells};
ghost use Rattle.c_grammar.specs.Trees as tree;
ghost use Rattle.c_grammar.specs.Words.{words_of};
ghost use Rattle.c_tree.specs.Syntax.{unit_tree};
ghost use Rattle.c_parse_exprs.specs.Reads.{Halts};
ghost use Rattle.c_parse.specs.Faults.{IsSyntaxFault};

use crate::items::read_items;
use c_grammar::tokens::Token;
use c_parse_exprs::{Class, SyntaxFault, Words, classes};
use c_tree::Unit;
use std::alloc::Global;

/// How many levels of nesting a file may have.
const MOST_LEVELS: u32 = 64;

/// All of the words.
#[tactic(auto, unfolding(c_grammar::specs::Readers::read_file))]
fn read_file(alloc: Global, words: &mut Words<'_>) -> Result<Unit, SyntaxFault>
    ensures unit { IfOk result (λ unit. readers.read_file 64 words.old ≡ Ok (unit_tree unit)) }
    ensures fault { IfErr result (λ fault. Halts fault (readers.read_file 64 words.old)) }
{
    let items = read_items(alloc, MOST_LEVELS, words)?;
    words.take(Class::End)?;
    Ok(Unit { items })
}

/// The syntax tree of the file that the tokens are, or where and why they are refused (C11 6.9): 111 at the first token
/// with which they begin no file, 112 at the first one that opens the 65th level of nesting.
pub fn parse(alloc: Global, tokens: &[Token<'_>]) -> Result<Unit, SyntaxFault>
    requires listed { IsTokenList tokens.now }
    ensures unit { IfOk result (λ unit. Spells (unit_tree unit) (words_of tokens.now)) }
    ensures levels { IfOk result (λ unit. file_nesting (unit_tree unit) ≤ MOST_LEVELS) }
    ensures fault { IfErr result (λ fault. IsSyntaxFault (words_of tokens.now) fault) }
    ensures complete { (file : tree.File) → Spells file (words_of tokens.now) → file_nesting file ≤ MOST_LEVELS
        → IfErr result (λ fault. fault ≡ OutOfMemory) }
{
    let found = classes(alloc, tokens)?;
    let mut words = Words::new(tokens, found.as_slice());
    read_file(alloc, &mut words)
}
