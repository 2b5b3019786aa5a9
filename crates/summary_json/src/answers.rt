//! Summaries and answers.
ghost use Rattle.std.specs.Prelude.{◌≡◌, Some, map, All, IfOk, IfErr};
ghost use Rattle.serde_json.specs.View.{view};
ghost use Rattle.shape_data.specs.WellFormed.{storable, AreParams, AreStructs, AreSummaries, IsFlow, IsStorableAnswer, IsStorableKey};
ghost use Rattle.flow_json.specs.Forms.{tuple};
ghost use Rattle.flow_json.specs.Unread.{IsUnread};
ghost use Rattle.summary_json.specs.Answers.{answer_data, answer_members, read_answer, read_summaries, summaries_data, summary_members};
ghost use Rattle.summary_json.specs.Laws.{IsReadAnswer};

use crate::reasons::{read_reason, reason_value};
use crate::scoped::Scoped;
use flow_json::objects::{has_names, member};
use flow_json::values::items;
use flow_json::{Form, Unread};
use serde_json::{Value, json};
use shape_data::answer::{Answer, Key, ProcSummary};
use shape_data::program::{Flow, StructDef};
use shape_data::{Name, Row, well_formed_answer, well_formed_key};
use std::alloc::{AllocError, Global};

/// The summary of an object with a summary's members.
#[tactic(auto, unfolding(flow_json::specs::Forms::go_on))]
fn summary_members(
    alloc: Global,
    structs: &[StructDef],
    params: &[Name],
    value: &Value,
) -> Result<ProcSummary, Unread>
    requires structs { AreStructs structs.now }
    requires params { AreParams params.now }
    ensures ok { IfOk result (λ summary. summary_members structs.now params.now (view value.now) ≡ Some summary) }
    ensures err { IfErr result (λ fault. IsUnread fault (summary_members structs.now params.now (view value.now))) }
{
    let certs = Row::of_value(alloc, structs, params, member(value, "certs")?)?;
    let name = Name::of_value(alloc, member(value, "name")?)?;
    let reason = read_reason(member(value, "reason")?)?;
    let specs = Row::of_value(alloc, structs, params, member(value, "specs")?)?;
    Ok(ProcSummary {
        name,
        specs,
        certs,
        reason,
    })
}

impl Scoped for ProcSummary {
    ghost use Rattle.summary_json.specs.Answers.{read_summary, summary_data};
    ghost use Rattle.summary_json.specs.Written.{SummaryIsText};

    ghost written = { summary_data };

    ghost reader = { read_summary };

    ghost fits = { SummaryIsText };

    fn to_value(
        &self,
        alloc: Global,
        structs: &[StructDef],
        params: &[Name],
    ) -> Result<Value, AllocError> {
        json!(in alloc; {
            "certs": self.certs.to_value(alloc, structs, params)?,
            "name": Form::to_value(&self.name, alloc)?,
            "reason": reason_value(alloc, self.reason)?,
            "specs": self.specs.to_value(alloc, structs, params)?
        })
    }

    fn of_value(
        alloc: Global,
        structs: &[StructDef],
        params: &[Name],
        value: &Value,
    ) -> Result<ProcSummary, Unread> {
        if has_names(&["certs", "name", "reason", "specs"], value) {
            summary_members(alloc, structs, params, value)
        } else {
            Err(Unread::NotOfForm)
        }
    }
}

/// The array of the summaries of procedures, one for each.
#[tactic(auto, using(crate::proofs::AnswerTexts::flow_params))]
fn summaries_value(
    alloc: Global,
    structs: &[StructDef],
    flows: &[Flow],
    summaries: &[ProcSummary],
) -> Result<Value, AllocError>
    requires structs { AreStructs structs.now }
    requires flows { All (IsFlow structs.now) flows.now }
    requires summaries { AreSummaries storable structs.now flows.now summaries.now }
    ensures { IfOk result (λ value. view value ≡ tuple (summaries_data structs.now flows.now summaries.now)) }
{
    let mut values = Vec::new(alloc);
    for place in 0..summaries.len() {
        let value = summaries[place].to_value(alloc, structs, flows[place].params.as_slice())?;
        serde_json::push(&mut values, value)?;
    }
    Ok(Value::Array(values))
}

/// The value of a well-formed answer for a well-formed key; its mark `stored` is not written. The only error is want of memory.
pub fn answer_value(alloc: Global, key: &Key, answer: &Answer) -> Result<Value, AllocError>
    requires key { IsStorableKey key.now }
    requires answer { IsStorableAnswer key.now answer.now }
    ensures { IfOk result (λ value. view value ≡ answer_data key.now answer.now) }
{
    let structs = key.structs.as_slice();
    let flows = key.procs.as_slice();
    json!(in alloc; {"procs": summaries_value(alloc, structs, flows, answer.procs.as_slice())?})
}

/// The summaries of items, one for each procedure.
#[tactic(auto, using(crate::proofs::AnswerLemmas::parts_differ, crate::proofs::AnswerTexts::flow_params))]
fn read_summaries(
    alloc: Global,
    structs: &[StructDef],
    flows: &[Flow],
    parts: &[Value],
) -> Result<Row<ProcSummary>, Unread>
    requires structs { AreStructs structs.now }
    requires flows { All (IsFlow structs.now) flows.now }
    ensures ok { IfOk result (λ summaries. read_summaries structs.now flows.now (map view parts.now) ≡ Some summaries) }
    ensures err { IfErr result (λ fault. IsUnread fault (read_summaries structs.now flows.now (map view parts.now))) }
{
    if flows.len() != parts.len() {
        return Err(Unread::NotOfForm);
    }
    let mut summaries = Row::new(alloc);
    for place in 0..flows.len() {
        let summary = ProcSummary::of_value(
            alloc,
            structs,
            flows[place].params.as_slice(),
            &parts[place],
        )?;
        summaries.push(summary)?;
    }
    Ok(summaries)
}

/// The answer of an object with an answer's members.
#[tactic(auto, unfolding(flow_json::specs::Forms::go_on))]
fn answer_members(alloc: Global, key: &Key, value: &Value) -> Result<Answer, Unread>
    requires { IsStorableKey key.now }
    ensures ok { IfOk result (λ answer. answer_members key.now (view value.now) ≡ Some answer) }
    ensures err { IfErr result (λ fault. IsUnread fault (answer_members key.now (view value.now))) }
{
    let parts = items(member(value, "procs")?)?;
    let procs = read_summaries(alloc, key.structs.as_slice(), key.procs.as_slice(), parts)?;
    Ok(Answer {
        stored: true,
        procs,
    })
}

/// The answer of a value.
fn answer_of(alloc: Global, key: &Key, value: &Value) -> Result<Answer, Unread>
    requires { IsStorableKey key.now }
    ensures ok { IfOk result (λ answer. read_answer key.now (view value.now) ≡ Some answer) }
    ensures err { IfErr result (λ fault. IsUnread fault (read_answer key.now (view value.now))) }
{
    if has_names(&["procs"], value) {
        answer_members(alloc, key, value)
    } else {
        Err(Unread::NotOfForm)
    }
}

/// The answer of a value, for a key: the well-formed answer that [`answer_value`] writes so, marked `stored`, or `None` where there is
/// none, and where the key is not well formed. The only error is want of memory.
#[tactic(auto, using(crate::proofs::ReadBack::answer_found, crate::proofs::ReadBack::answer_not_formed, crate::proofs::ReadBack::no_answer_found, crate::proofs::ReadBack::no_key))]
pub fn read_answer(alloc: Global, key: &Key, value: &Value) -> Result<Option<Answer>, AllocError>
    ensures { IfOk result (IsReadAnswer key.now (view value.now)) }
{
    if !well_formed_key(key) {
        return Ok(None);
    }
    match answer_of(alloc, key, value) {
        Ok(answer) => {
            if well_formed_answer(key, &answer) {
                Ok(Some(answer))
            } else {
                Ok(None)
            }
        }
        Err(Unread::NotOfForm) => Ok(None),
        Err(Unread::OutOfMemory) => Err(AllocError),
    }
}
