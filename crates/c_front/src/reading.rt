//! Reading: tokens, and then syntax.
ghost use Rattle.std.specs.Prelude.{◌≡◌, ◌<◌, ◌≤◌, List, length, IfOk, IfErr};
ghost use Rattle.c_grammar.specs.declared.tokens.fault.ReadFault.TheVariants.{OutOfMemory};
ghost use Rattle.c_grammar.specs.declared.tokens.token.Token.{Token as TokenValue};
ghost use Rattle.c_grammar.specs.Tokens.TokenLists.{IsTokenList};
ghost use Rattle.c_grammar.specs.Nesting.{file_nesting};
ghost use Rattle.c_grammar.specs.Printing.{printed_text};
ghost use Rattle.c_grammar.specs.Refusals.{MOST_LEVELS};
ghost use Rattle.c_grammar.specs.Spelling.{Spells};
ghost use Rattle.c_grammar.specs.Trees.{File};
ghost use Rattle.c_grammar.specs.Words.{words_of};
ghost use Rattle.c_tree.specs.Syntax.{unit_tree};
ghost use Rattle.c_front.specs.Units.{IsUnitOf, IsReadFault, ReadsBack};

use c_grammar::laws::{one_tree, round_trip};
use c_grammar::tokens::laws::{one_reading, tokens_or_refusal};
use c_grammar::tokens::{ReadFault, tokens};
use c_parse::parse;
use c_tree::Unit;
use std::alloc::Global;

/// The syntax tree of a C file (C11 6.4 to 6.9). The text may be any bytes; lines and columns count from 1, columns in bytes.
///
/// # Errors
///
/// The first refusal: a piece that is no token, else a token with which the tokens so far begin no file, or none within 64 levels
/// of nesting; and want of memory.
pub fn read_unit(alloc: Global, bytes: &[u8]) -> Result<Unit, ReadFault>
    requires { length bytes.now < 4294967295 }
    ensures unit { IfOk result (λ unit. IsUnitOf bytes.now (unit_tree unit)) }
    ensures fault { IfErr result (λ fault. IsReadFault bytes.now fault) }
    ensures complete { (file : File) → IsUnitOf bytes.now file → IfErr result (λ fault. fault ≡ OutOfMemory) }
    ensures reads_back { (listed : List TokenValue) → (file : File) → IsTokenList listed → Spells file (words_of listed)
        → file_nesting file ≤ MOST_LEVELS → bytes.now ≡ printed_text file → ReadsBack file result }
{
    one_reading();
    tokens_or_refusal();
    one_tree();
    round_trip();
    let found = tokens(alloc, bytes)?;
    parse(alloc, found.as_slice())
}
