ghost use Rattle.std.specs.Prelude.{IfOk};
ghost use Rattle.shape_data.specs.WellFormed.{IsStorableKey};

use serde_json::Value;
use shape_data::answer::Key;
use std::alloc::Global;
use std::process::Abort;
use std::test::Fail;
use summary_json::{answer_value, key_value, read_answer, read_key};

/// Keys and answers of stores that another implementation wrote: with and without callees, specs, reasons and recursion.
const STORED: [(&str, &str); 6] = [
    (
        "{\"callees\":[],\"procs\":[{\"name\":\"solo\",\"nodes\":[[0,null,[\"return\",[\"s\",0]]],[0,null,[\"any\",1,\"int\",2]],[0,null,[\"return\",[\"s\",1]]]],\"params\":[\"a\"],\"ret\":\"int\",\"slots\":[\"int\",\"int\"]}],\"recursive\":false,\"structs\":[]}",
        "{\"procs\":[{\"certs\":[{\"exits\":[\"emp ret=a\"],\"nodes\":[[{\"heap\":\"emp\",\"locals\":[\"a\",\"0\"]}],[],[]]}],\"name\":\"solo\",\"reason\":null,\"specs\":[{\"posts\":[\"emp ret=a\"],\"pre\":\"emp\"}]}]}",
    ),
    (
        "{\"callees\":[],\"procs\":[{\"name\":\"g3\",\"nodes\":[[1,null,[\"free\",1,\"node\",1]],[2,null,[\"free\",0,\"node\",2]],[3,null,[\"load\",2,1,\"node\",2,3]],[3,null,[\"return\",[\"s\",2]]],[4,null,[\"any\",2,[\"ptr\",\"node\"],5]],[4,null,[\"return\",[\"s\",2]]]],\"params\":[\"p0\",\"p1\"],\"ret\":[\"ptr\",\"node\"],\"slots\":[[\"ptr\",\"node\"],[\"ptr\",\"node\"],[\"ptr\",\"node\"]]}],\"recursive\":false,\"structs\":[[\"node\",[[\"next\",[\"ptr\",\"node\"]],[\"b\",\"int\"],[\"c\",[\"ptr\",\"node\"]]]]]}",
        "{\"procs\":[{\"certs\":[],\"name\":\"g3\",\"reason\":[\"no-path\",3,\"null\"],\"specs\":[]}]}",
    ),
    (
        "{\"callees\":[[\"g3\",[\"p0\",\"p1\"],[]]],\"procs\":[{\"name\":\"g0\",\"nodes\":[[1,null,[\"call\",2,\"g3\",[[\"s\",0],[\"n\",0]],1]],[1,null,[\"store\",0,\"node\",0,[\"s\",2],2]],[2,null,[\"copy\",1,[\"s\",0],3]],[3,null,[\"return\",[\"s\",0]]],[4,null,[\"any\",2,[\"ptr\",\"node\"],5]],[4,null,[\"return\",[\"s\",2]]]],\"params\":[\"p0\"],\"ret\":[\"ptr\",\"node\"],\"slots\":[[\"ptr\",\"node\"],[\"ptr\",\"node\"],[\"ptr\",\"node\"]]}],\"recursive\":false,\"structs\":[[\"node\",[[\"next\",[\"ptr\",\"node\"]],[\"b\",\"int\"],[\"c\",[\"ptr\",\"node\"]]]]]}",
        "{\"procs\":[{\"certs\":[],\"name\":\"g0\",\"reason\":[\"no-path\",1,\"callee\"],\"specs\":[]}]}",
    ),
    (
        "{\"callees\":[[\"g3\",[\"p0\",\"p1\"],[{\"posts\":[\"p0=0 ret=0\"],\"pre\":\"p0=0\"},{\"posts\":[\"emp ret=0\"],\"pre\":\"p0|->tree(next:$1)\"}]]],\"procs\":[{\"name\":\"f1\",\"nodes\":[[1,null,[\"call\",null,\"g3\",[[\"n\",0],[\"n\",0]],1]],[2,null,[\"arith\",0,\"+\",[\"n\",2],[\"n\",3],2]],[2,null,[\"arith\",1,\"-\",[\"n\",0],[\"s\",0],3]],[2,null,[\"return\",[\"s\",1]]],[3,null,[\"any\",0,\"int\",5]],[3,null,[\"return\",[\"s\",0]]]],\"params\":[],\"ret\":\"int\",\"slots\":[\"int\",\"int\"]}],\"recursive\":false,\"structs\":[[\"tree\",[[\"next\",[\"ptr\",\"tree\"]]]]]}",
        "{\"procs\":[{\"certs\":[{\"exits\":[\"emp ret=-5\"],\"nodes\":[[{\"heap\":\"emp\",\"locals\":[\"0\",\"0\"]}],[{\"heap\":\"emp\",\"locals\":[\"0\",\"0\"]}],[{\"heap\":\"emp\",\"locals\":[\"5\",\"0\"]}],[{\"heap\":\"emp\",\"locals\":[\"5\",\"-5\"]}],[],[]]}],\"name\":\"f1\",\"reason\":null,\"specs\":[{\"posts\":[\"emp ret=-5\"],\"pre\":\"emp\"}]}]}",
    ),
    (
        "{\"callees\":[],\"procs\":[{\"name\":\"f2\",\"nodes\":[[1,null,[\"call\",null,\"h0\",[[\"n\",7]],1]],[3,null,[\"copy\",0,[\"n\",0],2]],[4,null,[\"store\",0,\"pair\",0,[\"s\",0],3]],[5,null,[\"any\",1,\"int\",4]],[5,null,[\"return\",[\"s\",1]]]],\"params\":[\"p0\"],\"ret\":\"int\",\"slots\":[[\"ptr\",\"pair\"],\"int\"]},{\"name\":\"h0\",\"nodes\":[[1,null,[\"call\",null,\"f2\",[[\"n\",0]],1]],[2,null,[\"copy\",1,[\"n\",0],2]],[3,null,[\"return\",[\"n\",1]]],[4,null,[\"arith\",2,\"+\",[\"s\",0],[\"s\",0],4]],[4,null,[\"arith\",3,\"+\",[\"s\",0],[\"n\",2],5]],[4,null,[\"arith\",4,\"+\",[\"s\",2],[\"s\",3],6]],[4,null,[\"return\",[\"s\",4]]],[5,null,[\"any\",2,\"int\",8]],[5,null,[\"return\",[\"s\",2]]]],\"params\":[\"p0\"],\"ret\":\"int\",\"slots\":[\"int\",[\"ptr\",\"pair\"],\"int\",\"int\",\"int\"]}],\"recursive\":true,\"structs\":[[\"pair\",[[\"next\",[\"ptr\",\"pair\"]]]]]}",
        "{\"procs\":[{\"certs\":[],\"name\":\"f2\",\"reason\":[\"no-path\",1,\"callee\"],\"specs\":[]},{\"certs\":[],\"name\":\"h0\",\"reason\":[\"no-path\",1,\"callee\"],\"specs\":[]}]}",
    ),
    (
        "{\"callees\":[[\"f1\",[],[{\"posts\":[\"emp ret=-5\"],\"pre\":\"emp\"}]]],\"procs\":[{\"name\":\"h2\",\"nodes\":[[1,[[],[2,3,4]],[\"branch\",\"==\",false,[\"s\",1],[\"n\",7],1,4]],[1,null,[\"branch\",\">=\",false,[\"s\",1],[\"s\",1],2,4]],[3,null,[\"call\",null,\"f1\",[],3]],[4,null,[\"copy\",2,[\"n\",0],0]],[6,null,[\"arith\",3,\"-\",[\"s\",1],[\"s\",1],5]],[6,null,[\"branch\",\">=\",false,[\"s\",1],[\"s\",1],6,7]],[6,null,[\"copy\",4,[\"n\",1],8]],[6,null,[\"copy\",4,[\"n\",0],8]],[6,null,[\"call\",null,\"h2\",[[\"s\",3],[\"s\",4]],9]],[7,null,[\"arith\",3,\"+\",[\"s\",1],[\"s\",0],10]],[7,null,[\"call\",null,\"h2\",[[\"n\",1],[\"s\",3]],11]],[8,null,[\"arith\",3,\"-\",[\"s\",1],[\"n\",2147483647],12]],[8,null,[\"call\",null,\"h2\",[[\"s\",3],[\"n\",2147483647]],13]],[9,null,[\"return\",[\"n\",0]]],[10,null,[\"return\",[\"n\",0]]]],\"params\":[\"p0\",\"p1\"],\"ret\":\"void\",\"slots\":[\"int\",\"int\",[\"ptr\",\"q\"],\"int\",\"int\"]}],\"recursive\":true,\"structs\":[[\"q\",[[\"next\",[\"ptr\",\"q\"]]]]]}",
        "{\"procs\":[{\"certs\":[],\"name\":\"h2\",\"reason\":[\"no-path\",6,\"callee\"],\"specs\":[]}]}",
    ),
];

/// Reads a key, and checks that it is written as it was read.
fn check_key(rt: &impl Abort, alloc: Global, text: &str) -> Result<Key, Fail>
    ensures { IfOk result IsStorableKey }
{
    match read_key(alloc, &Value::from_str(alloc, text)?)? {
        Some(key) => {
            let written = key_value(alloc, &key)?.to_string(alloc)?;
            assert_eq!(rt; written.as_str(), text);
            Ok(key)
        }
        None => Err(Fail::from("no key")),
    }
}

/// Reads an answer for a key, and checks that it is written as it was read.
fn check_answer(rt: &impl Abort, alloc: Global, key: &str, text: &str) -> Result<(), Fail> {
    let key = check_key(rt, alloc, key)?;
    match read_answer(alloc, &key, &Value::from_str(alloc, text)?)? {
        Some(answer) => {
            assert!(rt; answer.stored);
            let written = answer_value(alloc, &key, &answer)?.to_string(alloc)?;
            assert_eq!(rt; written.as_str(), text);
            Ok(())
        }
        None => Err(Fail::from("no answer")),
    }
}

#[test]
fn stored_entries_are_read_and_written_again(rt: HostRuntime) -> Result<(), Fail> {
    for (key, answer) in STORED {
        check_answer(&rt, rt.alloc(), key, answer)?;
    }
    Ok(())
}

/// Each reason, with each word.
const REASONS: [&str; 15] = [
    "[\"endless\"]",
    "[\"no-path\",0,\"null\"]",
    "[\"no-path\",4294967295,\"unowned\"]",
    "[\"failed\",1,\"struct\"]",
    "[\"failed\",1,\"callee\"]",
    "[\"failed\",1,\"cover\"]",
    "[\"no-path\",1,\"alias\"]",
    "[\"no-path\",1,\"states\"]",
    "[\"no-path\",1,\"parts\"]",
    "[\"no-path\",1,\"turns\"]",
    "[\"spent\",\"turns\",2049]",
    "[\"spent\",\"states\",17]",
    "[\"spent\",\"parts\",97]",
    "[\"spent\",\"rounds\",8]",
    "[\"spent\",\"rounds\",0]",
];

/// The texts in a row.
fn joined(alloc: Global, texts: &[&str]) -> Result<String, Fail> {
    let mut whole = String::new(alloc);
    for text in texts {
        whole.push_str(text)?;
    }
    Ok(whole)
}

#[test]
fn reasons_are_read_and_written_again(rt: HostRuntime) -> Result<(), Fail> {
    let (key, _) = STORED[0];
    for reason in REASONS {
        let text = joined(
            rt.alloc(),
            &[
                "{\"procs\":[{\"certs\":[],\"name\":\"solo\",\"reason\":",
                reason,
                ",\"specs\":[]}]}",
            ],
        )?;
        check_answer(&rt, rt.alloc(), key, text.as_str())?;
    }
    Ok(())
}

/// Callees and structures that no key has: a text that is not of the grammar, a post without its result, a parameter that is not there, a
/// parameter twice, a member of the component as a callee, a structure twice, a member too few and an item too many.
const NO_KEYS: [(&str, &str); 8] = [
    ("[[\"g\",[],[{\"posts\":[],\"pre\":\"emp * emp\"}]]]", "[]"),
    ("[[\"g\",[],[{\"posts\":[\"emp\"],\"pre\":\"emp\"}]]]", "[]"),
    ("[[\"g\",[],[{\"posts\":[],\"pre\":\"x=0\"}]]]", "[]"),
    ("[[\"g\",[\"x\",\"x\"],[]]]", "[]"),
    ("[[\"f\",[],[]]]", "[]"),
    ("[]", "[[\"s\",[]],[\"s\",[]]]"),
    ("[[\"g\",[],[{\"pre\":\"emp\"}]]]", "[]"),
    ("[[\"g\",[],[],[]]]", "[]"),
];

/// The text of a key with one procedure.
fn key_text(alloc: Global, callees: &str, structs: &str) -> Result<String, Fail> {
    let procs =
        "[{\"name\":\"f\",\"nodes\":[[0,null,[\"return\",[\"n\",0]]]],\"params\":[],\"ret\":\"void\",\"slots\":[]}]";
    joined(
        alloc,
        &[
            "{\"callees\":",
            callees,
            ",\"procs\":",
            procs,
            ",\"recursive\":false,\"structs\":",
            structs,
            "}",
        ],
    )
}

#[test]
fn what_is_no_key_is_not_read(rt: HostRuntime) -> Result<(), Fail> {
    let text = key_text(
        rt.alloc(),
        "[[\"g\",[\"x\"],[{\"posts\":[],\"pre\":\"x=0\"}]]]",
        "[[\"s\",[]]]",
    )?;
    check_key(&rt, rt.alloc(), text.as_str())?;
    for (callees, structs) in NO_KEYS {
        let text = key_text(rt.alloc(), callees, structs)?;
        let found = read_key(rt.alloc(), &Value::from_str(rt.alloc(), text.as_str())?)?;
        assert!(rt; found.is_none(), "{text}");
    }
    Ok(())
}

/// Answers that the first key has none of: without a spec and a reason, of another name, with a certificate of another number of nodes,
/// with a state of another number of locals, with two summaries, with a reason of no form, with a member too many.
const NO_ANSWERS: [&str; 7] = [
    "{\"procs\":[{\"certs\":[],\"name\":\"solo\",\"reason\":null,\"specs\":[]}]}",
    "{\"procs\":[{\"certs\":[],\"name\":\"sole\",\"reason\":[\"endless\"],\"specs\":[]}]}",
    "{\"procs\":[{\"certs\":[{\"exits\":[],\"nodes\":[[],[]]}],\"name\":\"solo\",\"reason\":null,\"specs\":[{\"posts\":[],\"pre\":\"emp\"}]}]}",
    "{\"procs\":[{\"certs\":[{\"exits\":[],\"nodes\":[[{\"heap\":\"emp\",\"locals\":[\"a\"]}],[],[]]}],\"name\":\"solo\",\"reason\":null,\"specs\":[{\"posts\":[],\"pre\":\"emp\"}]}]}",
    "{\"procs\":[{\"certs\":[],\"name\":\"solo\",\"reason\":[\"endless\"],\"specs\":[]},{\"certs\":[],\"name\":\"solo\",\"reason\":[\"endless\"],\"specs\":[]}]}",
    "{\"procs\":[{\"certs\":[],\"name\":\"solo\",\"reason\":[\"endless\",1],\"specs\":[]}]}",
    "{\"procs\":[{\"certs\":[],\"name\":\"solo\",\"reason\":[\"endless\"],\"specs\":[]}],\"stored\":true}",
];

#[test]
fn what_is_no_answer_is_not_read(rt: HostRuntime) -> Result<(), Fail> {
    let (key, _) = STORED[0];
    let key = check_key(&rt, rt.alloc(), key)?;
    for text in NO_ANSWERS {
        let found = read_answer(rt.alloc(), &key, &Value::from_str(rt.alloc(), text)?)?;
        assert!(rt; found.is_none(), "{text}");
    }
    Ok(())
}
