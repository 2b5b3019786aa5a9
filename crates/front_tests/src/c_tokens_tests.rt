//! Texts, with their tokens or the first refusal, by C11 6.4 and 6.10.
ghost use Rattle.std.specs.Prelude.{◌<◌, length};

use c_grammar::tokens::{TokenFault, TokenKind, tokens};
use std::alloc::{AllocError, Global};
use std::process::Abort;
use std::test::Fail;

/// `W`, `K`, `N`, `S` or `E`.
fn letter(kind: TokenKind) -> &'static [u8] {
    match kind {
        TokenKind::Word => b"W ",
        TokenKind::Key => b"K ",
        TokenKind::Number => b"N ",
        TokenKind::Sign => b"S ",
        TokenKind::End => b"E ",
    }
}

fn write_place(alloc: Global, out: &mut Vec<u8>, line: u32, column: u32) -> Result<(), AllocError> {
    let place = format!(in alloc; " {line}:{column}")?;
    out.extend_from_slice(place.as_bytes())?;
    Ok(())
}

/// The tokens as `KIND TEXT LINE:COLUMN`, parted by blanks, or the refusal as `CODE LINE:COLUMN`.
fn read(alloc: Global, text: &[u8]) -> Result<Vec<u8>, AllocError>
    requires { length text.now < 4294967295 }
{
    let mut out = Vec::new(alloc);
    match tokens(alloc, text) {
        Ok(found) => {
            for token in &found {
                if !out.is_empty() {
                    out.push(b' ')?;
                }
                out.extend_from_slice(letter(token.kind))?;
                out.extend_from_slice(token.text.as_bytes())?;
                write_place(alloc, &mut out, token.line, token.column)?;
            }
        }
        Err(TokenFault::Refused(refusal)) => {
            let code = refusal.code;
            let shown = format!(in alloc; "{code}")?;
            out.extend_from_slice(shown.as_bytes())?;
            write_place(alloc, &mut out, refusal.line, refusal.column)?;
        }
        Err(TokenFault::OutOfMemory) => return Err(AllocError),
    }
    Ok(out)
}

fn all_read(rt: &impl Abort, alloc: Global, rows: &[(&[u8], &[u8])]) -> Result<(), Fail> {
    for (text, wanted) in rows {
        assert!(rt; text.len() < 1000);
        let found = read(alloc, text)?;
        assert_eq!(rt; found.as_slice(), *wanted);
    }
    Ok(())
}

#[test]
fn signs_are_as_long_as_they_can_be(rt: HostRuntime) -> Result<(), Fail> {
    all_read(
        &rt,
        rt.alloc(),
        &[
            (b"a+++b", b"W a 1:1 S ++ 1:2 S + 1:4 W b 1:5 E # 1:6"),
            (b"a---b", b"W a 1:1 S -- 1:2 S - 1:4 W b 1:5 E # 1:6"),
            (b"x->y", b"W x 1:1 S -> 1:2 W y 1:4 E # 1:5"),
            (b"x-->y", b"W x 1:1 S -- 1:2 S > 1:4 W y 1:5 E # 1:6"),
            (b"x->=y", b"W x 1:1 S -> 1:2 S = 1:4 W y 1:5 E # 1:6"),
            (b"x- >y", b"W x 1:1 S - 1:2 S > 1:4 W y 1:5 E # 1:6"),
            (b"a<=b", b"W a 1:1 S <= 1:2 W b 1:4 E # 1:5"),
            (b"a>==b", b"W a 1:1 S >= 1:2 S = 1:4 W b 1:5 E # 1:6"),
            (b"a===b", b"W a 1:1 S == 1:2 S = 1:4 W b 1:5 E # 1:6"),
            (b"a!=!b", b"W a 1:1 S != 1:2 S ! 1:4 W b 1:5 E # 1:6"),
            (b"!!a", b"S ! 1:1 S ! 1:2 W a 1:3 E # 1:4"),
            (
                b"a&&b||c",
                b"W a 1:1 S && 1:2 W b 1:4 S || 1:5 W c 1:7 E # 1:8",
            ),
            (
                b"a+=-=*=b",
                b"W a 1:1 S += 1:2 S -= 1:4 S *= 1:6 W b 1:8 E # 1:9",
            ),
            (
                b"=<>+-*!",
                b"S = 1:1 S < 1:2 S > 1:3 S + 1:4 S - 1:5 S * 1:6 S ! 1:7 E # 1:8",
            ),
            (
                b"(){};,",
                b"S ( 1:1 S ) 1:2 S { 1:3 S } 1:4 S ; 1:5 S , 1:6 E # 1:7",
            ),
            (b"**=*", b"S * 1:1 S *= 1:2 S * 1:4 E # 1:5"),
            (b"a<<b", b"W a 1:1 S < 1:2 S < 1:3 W b 1:4 E # 1:5"),
            (b"+ +", b"S + 1:1 S + 1:3 E # 1:4"),
            (b"= =", b"S = 1:1 S = 1:3 E # 1:4"),
            (b"+/**/+", b"S + 1:1 S + 1:6 E # 1:7"),
            (b"*/**/", b"S * 1:1 E # 1:6"),
            (b"a-//", b"W a 1:1 S - 1:2 E # 1:5"),
            (b"<-", b"S < 1:1 S - 1:2 E # 1:3"),
            (b"=-", b"S = 1:1 S - 1:2 E # 1:3"),
            (b"!==", b"S != 1:1 S = 1:3 E # 1:4"),
            (b"|||", b"101 1:3"),
            (b"& &", b"101 1:1"),
            (b"a&b", b"101 1:2"),
            (b"a&&&b", b"101 1:4"),
            (b"a|b", b"101 1:2"),
            (b"a/b", b"101 1:2"),
            (b"a/=b", b"101 1:2"),
        ],
    )
}

#[test]
fn words_and_numbers_are_as_long_as_they_can_be(rt: HostRuntime) -> Result<(), Fail> {
    all_read(
        &rt,
        rt.alloc(),
        &[
            (
                b"int x1=0;",
                b"K int 1:1 W x1 1:5 S = 1:7 N 0 1:8 S ; 1:9 E # 1:10",
            ),
            (b"_ _a A9", b"W _ 1:1 W _a 1:3 W A9 1:6 E # 1:8"),
            (
                b"NULL malloc free",
                b"K NULL 1:1 K malloc 1:6 K free 1:13 E # 1:17",
            ),
            (
                b"ints null Free",
                b"W ints 1:1 W null 1:6 W Free 1:11 E # 1:15",
            ),
            (
                b"_Bool volatile sizeof",
                b"K _Bool 1:1 K volatile 1:7 K sizeof 1:16 E # 1:22",
            ),
            (b"2147483647", b"N 2147483647 1:1 E # 1:11"),
            (b"2147483648", b"103 1:1"),
            (b"10000000000000000000000", b"103 1:1"),
            (b"-1", b"S - 1:1 N 1 1:2 E # 1:3"),
            (b"0", b"N 0 1:1 E # 1:2"),
            (b" 00", b"103 1:2"),
            (b"01", b"103 1:1"),
            (b"0x1", b"103 1:1"),
            (b"1u", b"103 1:1"),
            (b"1a", b"103 1:1"),
            (b"1_", b"103 1:1"),
            (b"1 a", b"N 1 1:1 W a 1:3 E # 1:4"),
            (b"1.5", b"101 1:2"),
            (
                b"a123456789b123456789c123456789d123456789e123456789f123456789g123",
                b"W a123456789b123456789c123456789d123456789e123456789f123456789g123 1:1 E # 1:65",
            ),
            (
                b";a123456789b123456789c123456789d123456789e123456789f123456789g1234",
                b"105 1:2",
            ),
        ],
    )
}

#[test]
fn blanks_and_comments_stand_between_tokens(rt: HostRuntime) -> Result<(), Fail> {
    all_read(
        &rt,
        rt.alloc(),
        &[
            (b"", b"E # 1:1"),
            (b"\n\n", b"E # 3:1"),
            (b" \t\r\x0ca\r\n b", b"W a 1:5 W b 2:2 E # 2:3"),
            (b"a\x0bb", b"101 1:2"),
            (b"a\0b", b"101 1:2"),
            (b"\xc3\xa4", b"101 1:1"),
            (b"'a'", b"101 1:1"),
            (b"\"a\"", b"101 1:1"),
            (b"a\\\nb", b"101 1:2"),
            (b"a[0]", b"101 1:2"),
            (b"a/**/b", b"W a 1:1 W b 1:6 E # 1:7"),
            (b"a/* ' \" // * / ** \n/* */b", b"W a 1:1 W b 2:6 E # 2:7"),
            (b"/***/a/****/", b"W a 1:6 E # 1:13"),
            (b"/*/", b"102 1:1"),
            (b"/*/*/a", b"W a 1:6 E # 1:7"),
            (b"a\n /* x\n\n", b"102 2:2"),
            (b"a // b */ /* '", b"W a 1:1 E # 1:15"),
            (b"a // b\nc//\n//", b"W a 1:1 W c 2:1 E # 3:3"),
            (b"// a \\\nb\nc", b"W c 3:1 E # 3:2"),
            (b"// a \\\r\nb\nc", b"W c 3:1 E # 3:2"),
            (b"// a \\ \nb", b"W b 2:1 E # 2:2"),
            (b"//\\\\\n\nc", b"W c 3:1 E # 3:2"),
            (b"/* *\\\n/ c", b"W c 2:3 E # 2:4"),
            (b"/* *\\\\\n/ c", b"102 1:1"),
            (b"a*/b", b"101 1:3"),
            (b"a @ /* x", b"101 1:3"),
        ],
    )
}

#[test]
fn includes_are_passed_over(rt: HostRuntime) -> Result<(), Fail> {
    all_read(
        &rt,
        rt.alloc(),
        &[
            (b"#include <stdlib.h>", b"E # 1:20"),
            (b" \t#\tinclude  <stdlib.h> \t\r\na", b"W a 2:1 E # 2:2"),
            (b"#include<a.h>// malloc\nb", b"W b 2:1 E # 2:2"),
            (
                b"/* x\n */ # /* y */ include /**/ <a b> /* z\n */\nb",
                b"W b 4:1 E # 4:2",
            ),
            (b"#include <a.h> /* \n */ b", b"104 1:1"),
            (b"a #include <a.h>", b"101 1:3"),
            (b"a /* \n */ #", b"101 2:5"),
            (b"a\n#include <//*'>\n", b"W a 1:1 E # 3:1"),
            (b"#define A 1", b"104 1:1"),
            (b"\n  #define A 1", b"104 2:3"),
            (b"#", b"104 1:1"),
            (b"#\ninclude <a.h>", b"104 1:1"),
            (b"#include", b"104 1:1"),
            (b"#include\n<a.h>", b"104 1:1"),
            (b"#include <>", b"104 1:1"),
            (b"#include <a\n>", b"104 1:1"),
            (b"#include <a", b"104 1:1"),
            (b"#include \"a.h\"", b"104 1:1"),
            (b"#includes <a.h>", b"104 1:1"),
            (b"#include <a.h> b", b"104 1:1"),
            (b"#include <a.h> #include <b.h>", b"104 1:1"),
            (b"#include // <a.h>\n", b"104 1:1"),
            (b"#include /* x", b"102 1:10"),
            (b"#include <a> /* x", b"102 1:14"),
            (b"#include <a> b /* x", b"104 1:1"),
            (b"#include<a> /* x */ // y", b"E # 1:25"),
            (b"# /* x", b"102 1:3"),
            (b"#define /* x", b"104 1:1"),
        ],
    )
}
