//! Faults, budgets and reasons: arrays that begin with a word, and the words of reports.
ghost use Rattle.std.specs.Prelude.{◌≡◌, Some, map, IfOk, IfErr};
ghost use Rattle.serde_json.specs.Data.{string};
ghost use Rattle.serde_json.specs.View.{view};
ghost use Rattle.flow_json.specs.Forms.{option_data, read_option};
ghost use Rattle.flow_json.specs.Unread.{IsUnread};
ghost use Rattle.summary_json.specs.Reasons.{budget_data, budget_of, endless_parts, failed_parts, fault_data, fault_of, limit_fault};
ghost use Rattle.summary_json.specs.Reasons.{no_path_parts, read_budget, read_fault, read_reason, reason_data, reason_of, spent_parts};

use flow_json::Unread;
use flow_json::values::{items, read_count, text};
use serde_json::{Value, json};
use shape_data::answer::{Budget, Fault, Reason};
use std::alloc::{AllocError, Global};

/// The word of a fault.
fn fault_word(fault: Fault) -> &'static str
    ensures { string result.now ≡ fault_data fault }
{
    match fault {
        Fault::Null => "null",
        Fault::Unowned => "unowned",
        Fault::Kind => "struct",
        Fault::Callee => "callee",
        Fault::Cover => "cover",
        Fault::Alias => "alias",
        Fault::States => "states",
        Fault::Parts => "parts",
        Fault::Turns => "turns",
    }
}

/// The fault of a word, if it is one of the analysis alone.
fn limit_fault(word: &str) -> Result<Fault, Unread>
    ensures ok { IfOk result (λ cause. limit_fault word.now ≡ Some cause) }
    ensures err { IfErr result (λ fault. IsUnread fault (limit_fault word.now)) }
{
    if word == "cover" {
        Ok(Fault::Cover)
    } else if word == "alias" {
        Ok(Fault::Alias)
    } else if word == "states" {
        Ok(Fault::States)
    } else if word == "parts" {
        Ok(Fault::Parts)
    } else if word == "turns" {
        Ok(Fault::Turns)
    } else {
        Err(Unread::NotOfForm)
    }
}

/// The fault of a word.
fn fault_of(word: &str) -> Result<Fault, Unread>
    ensures ok { IfOk result (λ cause. fault_of word.now ≡ Some cause) }
    ensures err { IfErr result (λ fault. IsUnread fault (fault_of word.now)) }
{
    if word == "null" {
        Ok(Fault::Null)
    } else if word == "unowned" {
        Ok(Fault::Unowned)
    } else if word == "struct" {
        Ok(Fault::Kind)
    } else if word == "callee" {
        Ok(Fault::Callee)
    } else {
        limit_fault(word)
    }
}

/// The fault of a value.
#[tactic(auto, unfolding(flow_json::specs::Forms::go_on))]
fn read_fault(value: &Value) -> Result<Fault, Unread>
    ensures ok { IfOk result (λ cause. read_fault (view value.now) ≡ Some cause) }
    ensures err { IfErr result (λ fault. IsUnread fault (read_fault (view value.now))) }
{
    fault_of(text(value)?)
}

/// The word of a budget.
fn budget_word(what: Budget) -> &'static str
    ensures { string result.now ≡ budget_data what }
{
    match what {
        Budget::Turns => "turns",
        Budget::States => "states",
        Budget::Parts => "parts",
        Budget::Rounds => "rounds",
    }
}

/// The budget of a word.
fn budget_of(word: &str) -> Result<Budget, Unread>
    ensures ok { IfOk result (λ what. budget_of word.now ≡ Some what) }
    ensures err { IfErr result (λ fault. IsUnread fault (budget_of word.now)) }
{
    if word == "turns" {
        Ok(Budget::Turns)
    } else if word == "states" {
        Ok(Budget::States)
    } else if word == "parts" {
        Ok(Budget::Parts)
    } else if word == "rounds" {
        Ok(Budget::Rounds)
    } else {
        Err(Unread::NotOfForm)
    }
}

/// The budget of a value.
#[tactic(auto, unfolding(flow_json::specs::Forms::go_on))]
fn read_budget(value: &Value) -> Result<Budget, Unread>
    ensures ok { IfOk result (λ what. read_budget (view value.now) ≡ Some what) }
    ensures err { IfErr result (λ fault. IsUnread fault (read_budget (view value.now))) }
{
    budget_of(text(value)?)
}

#[tactic(auto, unfolding(flow_json::specs::Forms::go_on))]
fn no_path_parts(parts: &[Value]) -> Result<Reason, Unread>
    ensures ok { IfOk result (λ why. no_path_parts (map view parts.now) ≡ Some why) }
    ensures err { IfErr result (λ fault. IsUnread fault (no_path_parts (map view parts.now))) }
{
    match parts {
        [line, fault] => {
            let line = read_count(line)?;
            let fault = read_fault(fault)?;
            Ok(Reason::NoPath { fault, line })
        }
        _ => Err(Unread::NotOfForm),
    }
}

fn endless_parts(parts: &[Value]) -> Result<Reason, Unread>
    ensures ok { IfOk result (λ why. endless_parts (map view parts.now) ≡ Some why) }
    ensures err { IfErr result (λ fault. IsUnread fault (endless_parts (map view parts.now))) }
{
    match parts {
        [] => Ok(Reason::Endless),
        _ => Err(Unread::NotOfForm),
    }
}

#[tactic(auto, unfolding(flow_json::specs::Forms::go_on))]
fn failed_parts(parts: &[Value]) -> Result<Reason, Unread>
    ensures ok { IfOk result (λ why. failed_parts (map view parts.now) ≡ Some why) }
    ensures err { IfErr result (λ fault. IsUnread fault (failed_parts (map view parts.now))) }
{
    match parts {
        [line, fault] => {
            let line = read_count(line)?;
            let fault = read_fault(fault)?;
            Ok(Reason::Failed { fault, line })
        }
        _ => Err(Unread::NotOfForm),
    }
}

#[tactic(auto, unfolding(flow_json::specs::Forms::go_on))]
fn spent_parts(parts: &[Value]) -> Result<Reason, Unread>
    ensures ok { IfOk result (λ why. spent_parts (map view parts.now) ≡ Some why) }
    ensures err { IfErr result (λ fault. IsUnread fault (spent_parts (map view parts.now))) }
{
    match parts {
        [what, count] => {
            let what = read_budget(what)?;
            let count = read_count(count)?;
            Ok(Reason::Spent { what, count })
        }
        _ => Err(Unread::NotOfForm),
    }
}

/// The reason of a word, with what stands behind it.
fn reason_of(parts: &[Value], word: &str) -> Result<Reason, Unread>
    ensures ok { IfOk result (λ why. reason_of (map view parts.now) word.now ≡ Some why) }
    ensures err { IfErr result (λ fault. IsUnread fault (reason_of (map view parts.now) word.now)) }
{
    if word == "no-path" {
        no_path_parts(parts)
    } else if word == "endless" {
        endless_parts(parts)
    } else if word == "failed" {
        failed_parts(parts)
    } else if word == "spent" {
        spent_parts(parts)
    } else {
        Err(Unread::NotOfForm)
    }
}

/// The reason of an array.
#[tactic(auto, unfolding(flow_json::specs::Forms::go_on))]
fn read_some_reason(value: &Value) -> Result<Reason, Unread>
    ensures ok { IfOk result (λ why. read_reason (view value.now) ≡ Some why) }
    ensures err { IfErr result (λ fault. IsUnread fault (read_reason (view value.now))) }
{
    match items(value)? {
        [tag, parts @ ..] => reason_of(parts, text(tag)?),
        [] => Err(Unread::NotOfForm),
    }
}

/// The reason of a value, if it is not `null`.
#[tactic(auto, unfolding(flow_json::specs::Forms::go_on))]
pub fn read_reason(value: &Value) -> Result<Option<Reason>, Unread>
    ensures ok { IfOk result (λ why. read_option read_reason (view value.now) ≡ Some why) }
    ensures err { IfErr result (λ fault. IsUnread fault (read_option read_reason (view value.now))) }
{
    if value.is_null() {
        Ok(None)
    } else {
        Ok(Some(read_some_reason(value)?))
    }
}

/// The array of a reason.
fn some_reason_value(alloc: Global, reason: Reason) -> Result<Value, AllocError>
    ensures { IfOk result (λ value. view value ≡ reason_data reason) }
{
    match reason {
        Reason::NoPath { fault, line } => json!(in alloc; ["no-path", line, fault_word(fault)]),
        Reason::Endless => json!(in alloc; ["endless"]),
        Reason::Failed { fault, line } => json!(in alloc; ["failed", line, fault_word(fault)]),
        Reason::Spent { what, count } => json!(in alloc; ["spent", budget_word(what), count]),
    }
}

/// The value of a reason, or `null`.
pub fn reason_value(alloc: Global, reason: Option<Reason>) -> Result<Value, AllocError>
    ensures { IfOk result (λ value. view value ≡ option_data reason_data reason) }
{
    match reason {
        Some(why) => some_reason_value(alloc, why),
        None => Ok(Value::Null),
    }
}
