ghost use Rattle.std.specs.Prelude.{IfOk};
ghost use Rattle.summary_store.specs.Loading.{AreLoaded};

use std::alloc::Global;
use std::process::Abort;
use std::test::Fail;
use summary_store::{Loaded, Unread, encode, load};

/// A text with a line feed, digits and a line feed behind it.
fn bytes_of(alloc: Global, text: &[u8], digits: &str) -> Result<Vec<u8>, Fail> {
    let mut bytes = Vec::new(alloc);
    bytes.extend_from_slice(text)?;
    bytes.push(b'\n')?;
    bytes.extend_from_slice(digits.as_bytes())?;
    bytes.push(b'\n')?;
    Ok(bytes)
}

/// The store without entries, and its hash.
const NOTHING: (&str, &str) = (
    "{\"entries\":[],\"format\":1}",
    "56177ba82b132c561284403f08857796de5af224c36f16e9f410781f41504ae8",
);

#[test]
fn the_store_without_entries_has_91_bytes(rt: HostRuntime) -> Result<(), Fail> {
    let bytes = bytes_of(rt.alloc(), NOTHING.0.as_bytes(), NOTHING.1)?;
    let written = encode(rt.alloc(), &[])?;
    assert_eq!(rt; written.len(), 91);
    assert_eq!(rt; written.as_slice(), bytes.as_slice());
    Ok(())
}

/// Stores with their hashes, the number of entries that are loaded, and of those that are dropped: none; `get`, which loads a field of its
/// parameter; the same and a second procedure; `get` with a post that its certificate does not show, alone and before another entry; `get`
/// with a weaker post, which is inductive, and not what solving finds; and a store that another implementation wrote.
const LOADED: [(&str, &str, usize, u32); 7] = [
    (
        "{\"entries\":[],\"format\":1}",
        "56177ba82b132c561284403f08857796de5af224c36f16e9f410781f41504ae8",
        0,
        0,
    ),
    (
        "{\"entries\":[{\"answer\":{\"procs\":[{\"certs\":[{\"exits\":[\"x|->node(data:$1,next:$2) ret=$1\"],\"nodes\":[[{\"heap\":\"x|->node(data:$1,next:$2)\",\"locals\":[\"x\",\"0\"]}],[{\"heap\":\"x|->node(data:$1,next:$2)\",\"locals\":[\"x\",\"$1\"]}],[],[]]}],\"name\":\"get\",\"reason\":null,\"specs\":[{\"posts\":[\"x|->node(data:$1,next:$2) ret=$1\"],\"pre\":\"x|->node(data:$1,next:$2)\"}]}]},\"key\":{\"callees\":[],\"procs\":[{\"name\":\"get\",\"nodes\":[[0,null,[\"load\",1,0,\"node\",0,1]],[0,null,[\"return\",[\"s\",1]]],[0,null,[\"any\",1,\"int\",3]],[0,null,[\"return\",[\"s\",1]]]],\"params\":[\"x\"],\"ret\":\"int\",\"slots\":[[\"ptr\",\"node\"],\"int\"]}],\"recursive\":false,\"structs\":[[\"node\",[[\"data\",\"int\"],[\"next\",[\"ptr\",\"node\"]]]]]}}],\"format\":1}",
        "26554a4b8a7744c2b4ae86eca398c2c4a1b59d60c87ce9cbdf47e9b6f1cf7901",
        1,
        0,
    ),
    (
        "{\"entries\":[{\"answer\":{\"procs\":[{\"certs\":[{\"exits\":[\"x|->node(data:$1,next:$2) ret=$1\"],\"nodes\":[[{\"heap\":\"x|->node(data:$1,next:$2)\",\"locals\":[\"x\",\"0\"]}],[{\"heap\":\"x|->node(data:$1,next:$2)\",\"locals\":[\"x\",\"$1\"]}],[],[]]}],\"name\":\"get\",\"reason\":null,\"specs\":[{\"posts\":[\"x|->node(data:$1,next:$2) ret=$1\"],\"pre\":\"x|->node(data:$1,next:$2)\"}]}]},\"key\":{\"callees\":[],\"procs\":[{\"name\":\"get\",\"nodes\":[[0,null,[\"load\",1,0,\"node\",0,1]],[0,null,[\"return\",[\"s\",1]]],[0,null,[\"any\",1,\"int\",3]],[0,null,[\"return\",[\"s\",1]]]],\"params\":[\"x\"],\"ret\":\"int\",\"slots\":[[\"ptr\",\"node\"],\"int\"]}],\"recursive\":false,\"structs\":[[\"node\",[[\"data\",\"int\"],[\"next\",[\"ptr\",\"node\"]]]]]}},{\"answer\":{\"procs\":[{\"certs\":[{\"exits\":[\"emp ret=a\"],\"nodes\":[[{\"heap\":\"emp\",\"locals\":[\"a\",\"0\"]}],[],[]]}],\"name\":\"solo\",\"reason\":null,\"specs\":[{\"posts\":[\"emp ret=a\"],\"pre\":\"emp\"}]}]},\"key\":{\"callees\":[],\"procs\":[{\"name\":\"solo\",\"nodes\":[[0,null,[\"return\",[\"s\",0]]],[0,null,[\"any\",1,\"int\",2]],[0,null,[\"return\",[\"s\",1]]]],\"params\":[\"a\"],\"ret\":\"int\",\"slots\":[\"int\",\"int\"]}],\"recursive\":false,\"structs\":[]}}],\"format\":1}",
        "30abad962ee0afb23718e5e6923d62e9f0d9dafb95656598050383ac39bb95af",
        2,
        0,
    ),
    (
        "{\"entries\":[{\"answer\":{\"procs\":[{\"certs\":[{\"exits\":[\"x|->node(data:$1,next:$2) ret=$2\"],\"nodes\":[[{\"heap\":\"x|->node(data:$1,next:$2)\",\"locals\":[\"x\",\"0\"]}],[{\"heap\":\"x|->node(data:$1,next:$2)\",\"locals\":[\"x\",\"$1\"]}],[],[]]}],\"name\":\"get\",\"reason\":null,\"specs\":[{\"posts\":[\"x|->node(data:$1,next:$2) ret=$2\"],\"pre\":\"x|->node(data:$1,next:$2)\"}]}]},\"key\":{\"callees\":[],\"procs\":[{\"name\":\"get\",\"nodes\":[[0,null,[\"load\",1,0,\"node\",0,1]],[0,null,[\"return\",[\"s\",1]]],[0,null,[\"any\",1,\"int\",3]],[0,null,[\"return\",[\"s\",1]]]],\"params\":[\"x\"],\"ret\":\"int\",\"slots\":[[\"ptr\",\"node\"],\"int\"]}],\"recursive\":false,\"structs\":[[\"node\",[[\"data\",\"int\"],[\"next\",[\"ptr\",\"node\"]]]]]}}],\"format\":1}",
        "3bc2048401e4b5e19554928aecf6424ffa7368468bbb75362e513b5129609467",
        0,
        1,
    ),
    (
        "{\"entries\":[{\"answer\":{\"procs\":[{\"certs\":[{\"exits\":[\"x|->node(data:$1,next:$2) ret=$2\"],\"nodes\":[[{\"heap\":\"x|->node(data:$1,next:$2)\",\"locals\":[\"x\",\"0\"]}],[{\"heap\":\"x|->node(data:$1,next:$2)\",\"locals\":[\"x\",\"$1\"]}],[],[]]}],\"name\":\"get\",\"reason\":null,\"specs\":[{\"posts\":[\"x|->node(data:$1,next:$2) ret=$2\"],\"pre\":\"x|->node(data:$1,next:$2)\"}]}]},\"key\":{\"callees\":[],\"procs\":[{\"name\":\"get\",\"nodes\":[[0,null,[\"load\",1,0,\"node\",0,1]],[0,null,[\"return\",[\"s\",1]]],[0,null,[\"any\",1,\"int\",3]],[0,null,[\"return\",[\"s\",1]]]],\"params\":[\"x\"],\"ret\":\"int\",\"slots\":[[\"ptr\",\"node\"],\"int\"]}],\"recursive\":false,\"structs\":[[\"node\",[[\"data\",\"int\"],[\"next\",[\"ptr\",\"node\"]]]]]}},{\"answer\":{\"procs\":[{\"certs\":[{\"exits\":[\"emp ret=a\"],\"nodes\":[[{\"heap\":\"emp\",\"locals\":[\"a\",\"0\"]}],[],[]]}],\"name\":\"solo\",\"reason\":null,\"specs\":[{\"posts\":[\"emp ret=a\"],\"pre\":\"emp\"}]}]},\"key\":{\"callees\":[],\"procs\":[{\"name\":\"solo\",\"nodes\":[[0,null,[\"return\",[\"s\",0]]],[0,null,[\"any\",1,\"int\",2]],[0,null,[\"return\",[\"s\",1]]]],\"params\":[\"a\"],\"ret\":\"int\",\"slots\":[\"int\",\"int\"]}],\"recursive\":false,\"structs\":[]}}],\"format\":1}",
        "5eb74661c246801ef49e01032399ddf130cbedde883b5c22d7bc31e6ef85c641",
        1,
        1,
    ),
    (
        "{\"entries\":[{\"answer\":{\"procs\":[{\"certs\":[{\"exits\":[\"x|->node(data:$1,next:$2) ret=$1\"],\"nodes\":[[{\"heap\":\"x|->node(data:$1,next:$2)\",\"locals\":[\"x\",\"0\"]}],[{\"heap\":\"x|->node(data:$1,next:$2)\",\"locals\":[\"x\",\"$1\"]}],[],[]]}],\"name\":\"get\",\"reason\":null,\"specs\":[{\"posts\":[\"junk ret=$1\"],\"pre\":\"x|->node(data:$1,next:$2)\"}]}]},\"key\":{\"callees\":[],\"procs\":[{\"name\":\"get\",\"nodes\":[[0,null,[\"load\",1,0,\"node\",0,1]],[0,null,[\"return\",[\"s\",1]]],[0,null,[\"any\",1,\"int\",3]],[0,null,[\"return\",[\"s\",1]]]],\"params\":[\"x\"],\"ret\":\"int\",\"slots\":[[\"ptr\",\"node\"],\"int\"]}],\"recursive\":false,\"structs\":[[\"node\",[[\"data\",\"int\"],[\"next\",[\"ptr\",\"node\"]]]]]}}],\"format\":1}",
        "9edf36170af4d5f0e74275f006cec276ee0ff69db22e43df362f63628cc772ba",
        1,
        0,
    ),
    (
        "{\"entries\":[{\"answer\":{\"procs\":[{\"certs\":[{\"exits\":[\"p0=0 ret=0\"],\"nodes\":[[{\"heap\":\"p0=0\",\"locals\":[\"0\",\"0\"]}],[{\"heap\":\"p0=0\",\"locals\":[\"0\",\"0\"]}],[],[],[],[]]},{\"exits\":[\"emp ret=0\"],\"nodes\":[[{\"heap\":\"p0|->node(d:$1,n:0)\",\"locals\":[\"p0\",\"0\"]}],[],[{\"heap\":\"p0|->node(d:$1,n:0)\",\"locals\":[\"p0\",\"0\"]}],[{\"heap\":\"p0|->node(d:$1,n:0)\",\"locals\":[\"p0\",\"0\"]}],[{\"heap\":\"p0|->node(d:$1,n:0)\",\"locals\":[\"p0\",\"0\"]}],[{\"heap\":\"emp\",\"locals\":[\"p0\",\"0\"]}]]},{\"exits\":[\"p0=0 ret=0\",\"emp ret=0\"],\"nodes\":[[{\"heap\":\"ls[node.n](p0,0)\",\"locals\":[\"p0\",\"0\"]}],[{\"heap\":\"p0=0\",\"locals\":[\"0\",\"0\"]}],[{\"heap\":\"p0!=0 * ls[node.n](p0,0)\",\"locals\":[\"p0\",\"0\"]}],[{\"heap\":\"p0|->node(d:?2,n:?1) * ls[node.n](?1,0)\",\"locals\":[\"p0\",\"?1\"]}],[{\"heap\":\"p0|->node(d:?2,n:?1)\",\"locals\":[\"p0\",\"?1\"]}],[{\"heap\":\"emp\",\"locals\":[\"p0\",\"?1\"]}]]}],\"name\":\"drop\",\"reason\":null,\"specs\":[{\"posts\":[\"p0=0 ret=0\"],\"pre\":\"p0=0\"},{\"posts\":[\"emp ret=0\"],\"pre\":\"p0|->node(d:$1,n:0)\"},{\"posts\":[\"emp ret=0\"],\"pre\":\"ls[node.n](p0,0)\"}]}]},\"key\":{\"callees\":[],\"procs\":[{\"name\":\"drop\",\"nodes\":[[1,null,[\"branch\",\"!=\",true,[\"s\",0],[\"n\",0],2,1]],[1,null,[\"return\",[\"n\",0]]],[1,null,[\"load\",1,0,\"node\",1,3]],[1,null,[\"call\",null,\"drop\",[[\"s\",1]],4]],[1,null,[\"free\",0,\"node\",5]],[2,null,[\"return\",[\"n\",0]]]],\"params\":[\"p0\"],\"ret\":\"void\",\"slots\":[[\"ptr\",\"node\"],[\"ptr\",\"node\"]]}],\"recursive\":true,\"structs\":[[\"node\",[[\"d\",\"int\"],[\"n\",[\"ptr\",\"node\"]]]]]}},{\"answer\":{\"procs\":[{\"certs\":[{\"exits\":[\"p0|->node(d:$1,n:p0) ret=0\"],\"nodes\":[[{\"heap\":\"p0|->node(d:$1,n:$2)\",\"locals\":[\"p0\"]}],[{\"heap\":\"p0|->node(d:$1,n:p0)\",\"locals\":[\"p0\"]}]]}],\"name\":\"ring\",\"reason\":null,\"specs\":[{\"posts\":[\"p0|->node(d:$1,n:p0) ret=0\"],\"pre\":\"p0|->node(d:$1,n:$2)\"}]}]},\"key\":{\"callees\":[],\"procs\":[{\"name\":\"ring\",\"nodes\":[[1,null,[\"store\",0,\"node\",1,[\"s\",0],1]],[2,null,[\"return\",[\"n\",0]]]],\"params\":[\"p0\"],\"ret\":\"void\",\"slots\":[[\"ptr\",\"node\"]]}],\"recursive\":false,\"structs\":[[\"node\",[[\"d\",\"int\"],[\"n\",[\"ptr\",\"node\"]]]]]}},{\"answer\":{\"procs\":[{\"certs\":[{\"exits\":[\"p0=0 ret=0\"],\"nodes\":[[{\"heap\":\"p0=0\",\"locals\":[\"0\",\"0\"]}],[{\"heap\":\"p0=0\",\"locals\":[\"0\",\"?1\"]}],[],[{\"heap\":\"p0=0\",\"locals\":[\"0\",\"?1\"]}],[],[]]}],\"name\":\"u0\",\"reason\":null,\"specs\":[{\"posts\":[\"p0=0 ret=0\"],\"pre\":\"p0=0\"}]}]},\"key\":{\"callees\":[[\"drop\",[\"p0\"],[{\"posts\":[\"p0=0 ret=0\"],\"pre\":\"p0=0\"},{\"posts\":[\"emp ret=0\"],\"pre\":\"p0|->node(d:$1,n:0)\"},{\"posts\":[\"emp ret=0\"],\"pre\":\"ls[node.n](p0,0)\"}]]],\"procs\":[{\"name\":\"u0\",\"nodes\":[[1,null,[\"call\",null,\"drop\",[[\"s\",0]],1]],[2,[[],[1]],[\"branch\",\"!=\",true,[\"s\",0],[\"n\",0],2,3]],[2,null,[\"load\",0,0,\"node\",1,1]],[3,null,[\"return\",[\"s\",0]]],[4,null,[\"any\",1,[\"ptr\",\"node\"],5]],[4,null,[\"return\",[\"s\",1]]]],\"params\":[\"p0\"],\"ret\":[\"ptr\",\"node\"],\"slots\":[[\"ptr\",\"node\"],[\"ptr\",\"node\"]]}],\"recursive\":false,\"structs\":[[\"node\",[[\"d\",\"int\"],[\"n\",[\"ptr\",\"node\"]]]]]}}],\"format\":1}",
        "2f187efebf71bdd80f5d95e49ffdead01265b235ca679b580661e990a744e31e",
        3,
        0,
    ),
];

/// Loads bytes.
fn loaded(alloc: Global, bytes: &[u8]) -> Result<Loaded, Fail>
    ensures { IfOk result AreLoaded }
{
    if bytes.len() < 4_294_967_296 {
        Ok(load(alloc, bytes)?)
    } else {
        Err(Fail::from("too long"))
    }
}

/// Checks what is loaded of bytes; where nothing was dropped, the same bytes are written of it.
fn check_loaded(
    rt: &impl Abort,
    alloc: Global,
    bytes: &[u8],
    count: usize,
    others: u32,
) -> Result<(), Fail> {
    match loaded(alloc, bytes)? {
        Loaded::Entries { entries, dropped } => {
            assert_eq!(rt; entries.len(), count);
            assert_eq!(rt; dropped, others);
            assert!(rt; entries.iter().all(|kept| kept.answer.stored));
            if dropped == 0 {
                let written = encode(alloc, entries.as_slice())?;
                assert_eq!(rt; written.as_slice(), bytes);
            }
            Ok(())
        }
        Loaded::Unread { .. } => Err(Fail::from("not read")),
    }
}

#[test]
fn what_is_inductive_is_loaded_and_written_again(rt: HostRuntime) -> Result<(), Fail> {
    for (text, digits, count, others) in LOADED {
        let bytes = bytes_of(rt.alloc(), text.as_bytes(), digits)?;
        check_loaded(&rt, rt.alloc(), bytes.as_slice(), count, others)?;
    }
    Ok(())
}

/// Checks why bytes are not read.
fn check_unread(
    rt: &impl Abort,
    alloc: Global,
    bytes: &[u8],
    expected: Unread,
) -> Result<(), Fail> {
    match loaded(alloc, bytes)? {
        Loaded::Entries { .. } => Err(Fail::from("read")),
        Loaded::Unread { why } => {
            assert_eq!(rt; why, expected);
            Ok(())
        }
    }
}

/// Texts with their hashes that are no stores: no JSON; another format, or one that is no integer or no number; objects with a member too
/// few or too many; a slot that is not there; another procedure's answer; an item that is no entry.
const UNREAD: [(&str, &str, Unread); 15] = [
    (
        "{\"entries\":[],\"format\":1",
        "fe7f2902c9ce4305f0f6eccca168a2e40821fe70f040eef77f6088b036dc7a92",
        Unread::Json,
    ),
    (
        "{\"entries\":[],\"format\":1} {}",
        "b4a39776c04dd7996f2c5b5241130f53547dace970c4abd08e3a399bde7f0ee1",
        Unread::Json,
    ),
    (
        "",
        "e3b0c44298fc1c149afbf4c8996fb92427ae41e4649b934ca495991b7852b855",
        Unread::Json,
    ),
    (
        "{\"entries\":[],\"format\":9}",
        "c94dc3324679ec5aec6acf0b83cd9df88ab1f5bbb2910f4ab0f2db35969754dd",
        Unread::Format,
    ),
    (
        "{\"entries\":[],\"format\":1.0}",
        "8039572205572c0d2551dc7a9c5aa239f25e168a3ec35cb5f770ea9f16567e3f",
        Unread::Format,
    ),
    (
        "{\"entries\":[],\"format\":\"1\"}",
        "9a2cc87bbcdaa020ed80c304a9350cbd3c085882f4d6cf9e4ce98a779a31379a",
        Unread::Format,
    ),
    (
        "{\"entries\":[]}",
        "d801aa1fb7ddcc330a5e3173372ea6af4a3d08ec58074478e85aa5603e926658",
        Unread::Format,
    ),
    (
        "{\"entries\":{},\"format\":1}",
        "a99742ac0535cd5188277aeef3fcc081d507b7daad74bb2b8b03346d31fe04b4",
        Unread::Format,
    ),
    (
        "{\"entries\":[],\"format\":1,\"made\":1}",
        "9f87f8ff15442ad7656b771f4c2072b443d299f90056d307db10cc47f0fecb60",
        Unread::Format,
    ),
    (
        "[]",
        "4f53cda18c2baa0c0354bb5f9a3ecbe5ed12ab4d8e11ba873c2f11161202b945",
        Unread::Format,
    ),
    (
        "{\"entries\":[{\"answer\":{\"procs\":[{\"certs\":[{\"exits\":[\"x|->node(data:$1,next:$2) ret=$1\"],\"nodes\":[[{\"heap\":\"x|->node(data:$1,next:$2)\",\"locals\":[\"x\",\"0\"]}],[{\"heap\":\"x|->node(data:$1,next:$2)\",\"locals\":[\"x\",\"$1\"]}],[],[]]}],\"name\":\"get\",\"reason\":null,\"specs\":[{\"posts\":[\"x|->node(data:$1,next:$2) ret=$1\"],\"pre\":\"x|->node(data:$1,next:$2)\"}]}]},\"key\":{\"callees\":[],\"procs\":[{\"name\":\"get\",\"nodes\":[[0,null,[\"load\",99,0,\"node\",0,1]],[0,null,[\"return\",[\"s\",1]]],[0,null,[\"any\",1,\"int\",3]],[0,null,[\"return\",[\"s\",1]]]],\"params\":[\"x\"],\"ret\":\"int\",\"slots\":[[\"ptr\",\"node\"],\"int\"]}],\"recursive\":false,\"structs\":[[\"node\",[[\"data\",\"int\"],[\"next\",[\"ptr\",\"node\"]]]]]}}],\"format\":1}",
        "7e6a1cbe8e06d1f616c6751b1f31b4474252cf8734235a1b297d16682f6306c4",
        Unread::Format,
    ),
    (
        "{\"entries\":[{\"answer\":{\"procs\":[{\"certs\":[{\"exits\":[\"emp ret=a\"],\"nodes\":[[{\"heap\":\"emp\",\"locals\":[\"a\",\"0\"]}],[],[]]}],\"name\":\"solo\",\"reason\":null,\"specs\":[{\"posts\":[\"emp ret=a\"],\"pre\":\"emp\"}]}]},\"key\":{\"callees\":[],\"procs\":[{\"name\":\"get\",\"nodes\":[[0,null,[\"load\",1,0,\"node\",0,1]],[0,null,[\"return\",[\"s\",1]]],[0,null,[\"any\",1,\"int\",3]],[0,null,[\"return\",[\"s\",1]]]],\"params\":[\"x\"],\"ret\":\"int\",\"slots\":[[\"ptr\",\"node\"],\"int\"]}],\"recursive\":false,\"structs\":[[\"node\",[[\"data\",\"int\"],[\"next\",[\"ptr\",\"node\"]]]]]}}],\"format\":1}",
        "a6449feb124ad89319de899ece743f21025724485d6374d973de3191681fcc40",
        Unread::Format,
    ),
    (
        "{\"entries\":[{\"key\":{\"callees\":[],\"procs\":[{\"name\":\"get\",\"nodes\":[[0,null,[\"load\",1,0,\"node\",0,1]],[0,null,[\"return\",[\"s\",1]]],[0,null,[\"any\",1,\"int\",3]],[0,null,[\"return\",[\"s\",1]]]],\"params\":[\"x\"],\"ret\":\"int\",\"slots\":[[\"ptr\",\"node\"],\"int\"]}],\"recursive\":false,\"structs\":[[\"node\",[[\"data\",\"int\"],[\"next\",[\"ptr\",\"node\"]]]]]}}],\"format\":1}",
        "da44d5d3477d8ccb6b6a2d4fc5385c652bfcc3f2bbc0482f8caee1bf0e31bc84",
        Unread::Format,
    ),
    (
        "{\"entries\":[{\"answer\":{\"procs\":[{\"certs\":[{\"exits\":[\"x|->node(data:$1,next:$2) ret=$1\"],\"nodes\":[[{\"heap\":\"x|->node(data:$1,next:$2)\",\"locals\":[\"x\",\"0\"]}],[{\"heap\":\"x|->node(data:$1,next:$2)\",\"locals\":[\"x\",\"$1\"]}],[],[]]}],\"name\":\"get\",\"reason\":null,\"specs\":[{\"posts\":[\"x|->node(data:$1,next:$2) ret=$1\"],\"pre\":\"x|->node(data:$1,next:$2)\"}]}]},\"key\":{\"callees\":[],\"procs\":[{\"name\":\"get\",\"nodes\":[[0,null,[\"load\",1,0,\"node\",0,1]],[0,null,[\"return\",[\"s\",1]]],[0,null,[\"any\",1,\"int\",3]],[0,null,[\"return\",[\"s\",1]]]],\"params\":[\"x\"],\"ret\":\"int\",\"slots\":[[\"ptr\",\"node\"],\"int\"]}],\"recursive\":false,\"structs\":[[\"node\",[[\"data\",\"int\"],[\"next\",[\"ptr\",\"node\"]]]]]},\"stored\":true}],\"format\":1}",
        "89f86be245d6208cd86516c378bd6148fa1b55e6c1d6d89e756022d1ddaa94a7",
        Unread::Format,
    ),
    (
        "{\"entries\":[{\"answer\":{\"procs\":[{\"certs\":[{\"exits\":[\"emp ret=a\"],\"nodes\":[[{\"heap\":\"emp\",\"locals\":[\"a\",\"0\"]}],[],[]]}],\"name\":\"solo\",\"reason\":null,\"specs\":[{\"posts\":[\"emp ret=a\"],\"pre\":\"emp\"}]}]},\"key\":{\"callees\":[],\"procs\":[{\"name\":\"solo\",\"nodes\":[[0,null,[\"return\",[\"s\",0]]],[0,null,[\"any\",1,\"int\",2]],[0,null,[\"return\",[\"s\",1]]]],\"params\":[\"a\"],\"ret\":\"int\",\"slots\":[\"int\",\"int\"]}],\"recursive\":false,\"structs\":[]}},[]],\"format\":1}",
        "e56275707510e709069fceda8ed9ef02ff88127fef5cd6c6df0f428a0674cfe7",
        Unread::Format,
    ),
];

#[test]
fn what_is_no_store_is_not_read(rt: HostRuntime) -> Result<(), Fail> {
    for (text, digits, why) in UNREAD {
        let bytes = bytes_of(rt.alloc(), text.as_bytes(), digits)?;
        check_unread(&rt, rt.alloc(), bytes.as_slice(), why)?;
    }
    // no UTF-8
    let digits = "a8100ae6aa1940d0b663bb31cd466142ebbdbd5187131b92d93818987832eb89";
    let bytes = bytes_of(rt.alloc(), b"\xff", digits)?;
    check_unread(&rt, rt.alloc(), bytes.as_slice(), Unread::Json)
}

/// Digits that are not the hash of the store without entries: one is another, one is missing, one is too many, letters are upper case.
const WRONG: [&str; 4] = [
    "56177ba82b132c561284403f08857796de5af224c36f16e9f410781f41504ae9",
    "56177ba82b132c561284403f08857796de5af224c36f16e9f410781f41504ae",
    "56177ba82b132c561284403f08857796de5af224c36f16e9f410781f41504ae80",
    "56177BA82B132C561284403F08857796DE5AF224C36F16E9F410781F41504AE8",
];

#[test]
fn a_wrong_hash_comes_first(rt: HostRuntime) -> Result<(), Fail> {
    check_unread(&rt, rt.alloc(), b"", Unread::Trailer)?;
    check_unread(&rt, rt.alloc(), b"hello", Unread::Trailer)?;
    for digits in WRONG {
        let bytes = bytes_of(rt.alloc(), NOTHING.0.as_bytes(), digits)?;
        check_unread(&rt, rt.alloc(), bytes.as_slice(), Unread::Trailer)?;
    }
    let mut front = bytes_of(rt.alloc(), NOTHING.0.as_bytes(), NOTHING.1)?;
    front.truncate(90);
    check_unread(&rt, rt.alloc(), front.as_slice(), Unread::Trailer)?;
    let other_format = bytes_of(rt.alloc(), b"{\"entries\":[],\"format\":9}", NOTHING.1)?;
    check_unread(&rt, rt.alloc(), other_format.as_slice(), Unread::Trailer)
}
