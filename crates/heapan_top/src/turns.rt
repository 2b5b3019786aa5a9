//! One command after another: each is taken from the stream and answered, or ends the session.
ghost use Rattle.std.specs.Prelude.{
  ◌≡◌,
  ◌≢◌,
  ◌-◌,
  ◌≤◌,
  ◌↔◌,
  ℕ,
  List,
  Some,
  Err,
  IfErr,
  IfOk,
  IfSome,
  IfNone,
  IsSome,
  OnErr,
  OnOk,
  is_some,
  length,
  map,
};
ghost use Rattle.io_ports.specs.Counts.{Rose};
ghost use Rattle.reporters.specs.Feeding.{steady_count};
ghost use Rattle.session_lines.specs.Lines.{IsCommand, IsFirst};
ghost use Rattle.session_lines.specs.Reading.{stream_left};
ghost use Rattle.session_replies.specs.Answers.{IsAnswered};
ghost use Rattle.heapan_top.specs.Headline.{ReadsFront};
ghost use Rattle.session_replies.specs.Entries.{Feeds};
ghost use Rattle.session_replies.specs.Parts.{bytes_saved};
ghost use Rattle.heapan_top.specs.Parts.{
  Ends,
  IsAt,
  IsCutShort,
  IsOneMore,
  IsReply,
  IsReplyFed,
  IsReplySaved,
  IsReplyWork,
  IsStoreCut,
  IsTurn,
  IsTurnFed,
  IsWork,
  IsWriteEnd,
  course_of,
  ended_of,
  path_bytes,
};
ghost use Rattle.heapan_top.specs.Stores.{KeepsOthers, given_last, path_told};
ghost use Rattle.heapan_top.specs.Replies.{Course, malformed_line, one_behind, status_with};

use crate::laws::{one_reply, some_reply};
use crate::status::Status;
use io_ports::{Gate, KeepFault, Keeper, Sink, SinkFault, Source, write_all};
use report_text::push_decimal;
use reporters::{Reporter, feed_all};
use session_lines::laws::one_first;
use session_lines::{Command, Commands, Taken, next_command};
use session_replies::laws::{answers_keep_limits, one_answer};
use session_replies::reply::Reply;
use session_replies::told::Told;
use session_replies::{Session, SolveJob};
use std::alloc::{AllocError, Global};
use std::sync::Wait;
use std::sync::ledger::Ledger;
use worker_pool::desk::Desk;
use worker_pool::shares::Hands;

/// How a call ends that has read all, where the last report told of so many procedures without a spec.
fn status_with(missing: usize) -> Status
    ensures { result ≡ status_with missing }
{
    if missing == 0 {
        Status::Done
    } else {
        Status::Unproven
    }
}

/// How a call ends in which a write failed.
pub fn write_end(fault: SinkFault) -> Status
    ensures ends { IsWriteEnd result }
    ensures write_fault { (result ≡ Status.WriteFault) ↔ (fault ≡ SinkFault.Failed) }
{
    match fault {
        SinkFault::Failed => Status::WriteFault,
        SinkFault::OutOfMemory => Status::NoMemory,
    }
}

/// Writes bytes, and says how the call ends: as it was to end where all were written.
pub fn written<K: Sink>(alloc: Global, sink: &mut K, bytes: &[u8], planned: Status) -> Status
    ensures ends { Ends (K.held sink.old) (K.held sink.new) bytes.now planned result }
    ensures write_fault { result ≡ Status.WriteFault → planned ≢ Status.WriteFault → Rose (K.faults sink.old) (K.faults sink.new) }
    ensures never_falls { K.faults sink.old ≤ K.faults sink.new }
{
    match write_all(alloc, sink, bytes) {
        Ok(()) => planned,
        Err(fault) => write_end(fault),
    }
}

/// The line that what stands first in the stream is no command that is taken.
#[tactic(auto, using(crate::proofs::Appending::appending))]
fn malformed_text(alloc: Global, number: u32, offset: u64) -> Result<Vec<u8>, AllocError>
    ensures { IfOk result (λ text. text.items ≡ malformed_line number offset) }
{
    let mut text = Vec::from_slice(alloc, b"malformed ")?;
    push_decimal(&mut text, u64::from(number))?;
    text.extend_from_slice(b" ")?;
    push_decimal(&mut text, offset)?;
    text.extend_from_slice(b"\n")?;
    Ok(text)
}

/// Refuses what stands first in the stream.
fn refuse<K: Sink>(alloc: Global, sink: &mut K, command: u32, offset: u64) -> Status
    ensures ends { Ends (K.held sink.old) (K.held sink.new) (malformed_line command offset) (Status.Refused command offset) result }
    ensures write_fault { result ≡ Status.WriteFault → Rose (K.faults sink.old) (K.faults sink.new) }
    ensures never_falls { K.faults sink.old ≤ K.faults sink.new }
{
    match malformed_text(alloc, command, offset) {
        Ok(text) => written(
            alloc,
            sink,
            text.as_slice(),
            Status::Refused { command, offset },
        ),
        Err(_) => Status::NoMemory,
    }
}

/// Puts bytes into the store, if there are any, or says how the session ends for a fault.
fn stored<P: Keeper>(
    alloc: Global,
    keeper: &mut P,
    path: Option<&str>,
    saved: Option<Vec<u8>>,
) -> Result<(), Status>
    requires { IsSome (bytes_saved saved) → IsSome path }
    ensures stored { OnOk result (path_told (P.kept keeper.new) (path_bytes path.entry) ≡ given_last (bytes_saved saved)
        (path_told (P.kept keeper.old) (path_bytes path.entry))) }
    ensures cut { OnErr result (IsStoreCut (bytes_saved saved) (path_told (P.kept keeper.old) (path_bytes path.entry))
        (path_told (P.kept keeper.new) (path_bytes path.entry))) }
    ensures status { IfErr result IsCutShort }
    ensures others { KeepsOthers (path_bytes path.entry) (P.kept keeper.old) (P.kept keeper.new) }
    ensures write_fault { result ≢ Err Status.WriteFault }
    ensures store_fault { result ≡ Err Status.StoreFault → Rose (P.faults keeper.old) (P.faults keeper.new) }
    ensures never_falls { P.faults keeper.old ≤ P.faults keeper.new }
{
    let Some(bytes) = saved else {
        return Ok(());
    };
    let Some(path) = path else {
        unreachable!();
    };
    match keeper.replace(alloc, path, bytes.as_slice()) {
        Ok(()) => Ok(()),
        Err(KeepFault::Failed) => Err(Status::StoreFault),
        Err(KeepFault::OutOfMemory) => Err(Status::NoMemory),
    }
}

/// Writes the reply to a command, and hands on the entries that reporters are to be fed; or says how the session ends for a fault.
fn write_reply<R: Wait, K: Sink, P: Keeper, G: Gate, A: Ledger, B: Ledger>(
    rt: &R,
    alloc: Global,
    desk: &Desk<'_, SolveJob, G, A, B>,
    hands: &mut Hands<B>,
    session: &mut Session,
    sink: &mut K,
    keeper: &mut P,
    path: Option<&str>,
    asked: Command,
) -> Result<Vec<Told>, Status>
    requires answered { IsAnswered asked }
    requires allowed { IsCommand asked }
    requires named { session.old.setting.saves ≡ is_some path }
    ensures reply { IsReply session.old asked (K.held sink.old) session.new (K.held sink.new) (ended_of result) }
    ensures work { IsReplyWork session.old asked (K.held sink.old) session.new (K.held sink.new) hands.new.seen (ended_of result) }
    ensures entries { IfOk result (λ entries. Feeds session.old asked entries.items) }
    ensures saved { IsReplySaved session.old asked (path_told (P.kept keeper.old) (path_bytes path.entry))
        (path_told (P.kept keeper.new) (path_bytes path.entry)) (ended_of result) }
    ensures others { KeepsOthers (path_bytes path.entry) (P.kept keeper.old) (P.kept keeper.new) }
    ensures rises { hands.old.seen ≤ hands.new.seen }
    ensures write_fault { result ≡ Err Status.WriteFault → Rose (K.faults sink.old) (K.faults sink.new) }
    ensures store_fault { result ≡ Err Status.StoreFault → Rose (P.faults keeper.old) (P.faults keeper.new) }
    ensures writes_never_fall { K.faults sink.old ≤ K.faults sink.new }
    ensures stores_never_fall { P.faults keeper.old ≤ P.faults keeper.new }
{
    let Ok(reply) = session.reply(rt, alloc, desk, hands, asked) else {
        return Err(Status::NoMemory);
    };
    let Reply {
        text,
        entries,
        saved,
    } = reply;
    stored(alloc, keeper, path, saved)?;
    match write_all(alloc, sink, text.as_slice()) {
        Ok(()) => Ok(entries),
        Err(fault) => Err(write_end(fault)),
    }
}

/// Answers a command and then feeds the reporters, or says how the session ends for a fault.
fn reply<R: Wait, K: Sink, P: Keeper, G: Gate, A: Ledger, B: Ledger>(
    rt: &R,
    alloc: Global,
    desk: &Desk<'_, SolveJob, G, A, B>,
    hands: &mut Hands<B>,
    session: &mut Session,
    sink: &mut K,
    keeper: &mut P,
    path: Option<&str>,
    reporters: &mut Vec<Box<dyn Reporter + Send>>,
    asked: Command,
) -> Option<Status>
    requires answered { IsAnswered asked }
    requires allowed { IsCommand asked }
    requires named { session.old.setting.saves ≡ is_some path }
    ensures reply { IsReply session.old asked (K.held sink.old) session.new (K.held sink.new) result }
    ensures work { IsReplyWork session.old asked (K.held sink.old) session.new (K.held sink.new) hands.new.seen result }
    ensures feeds { IsReplyFed session.old asked (path_told (P.kept keeper.old) (path_bytes path.entry))
        (path_told (P.kept keeper.new) (path_bytes path.entry))
        (reporters.new.items ≡ reporters.old.items) (map (λ one. known one) reporters.old.items)
        (map (λ one. known one) reporters.new.items) result }
    ensures steady { steady_count (map (λ one. known one) reporters.new.items) ≡ steady_count (map (λ one. known one) reporters.old.items) }
    ensures others { KeepsOthers (path_bytes path.entry) (P.kept keeper.old) (P.kept keeper.new) }
    ensures rises { hands.old.seen ≤ hands.new.seen }
    ensures write_fault { result ≡ Some Status.WriteFault → Rose (K.faults sink.old) (K.faults sink.new) }
    ensures store_fault { result ≡ Some Status.StoreFault → Rose (P.faults keeper.old) (P.faults keeper.new) }
    ensures writes_never_fall { K.faults sink.old ≤ K.faults sink.new }
    ensures stores_never_fall { P.faults keeper.old ≤ P.faults keeper.new }
{
    match write_reply(rt, alloc, desk, hands, session, sink, keeper, path, asked) {
        Ok(entries) => {
            for told in entries.as_slice() {
                feed_all(alloc, reporters, told.entry());
            }
            None
        }
        Err(status) => Some(status),
    }
}

/// What a command that was taken leads to: it is answered, or ends the session. Its number, from 1, and the offset of its first byte in
/// the stream are shown where it is none that the program takes.
fn follow<R: Wait, K: Sink, P: Keeper, G: Gate, A: Ledger, B: Ledger>(
    rt: &R,
    alloc: Global,
    desk: &Desk<'_, SolveJob, G, A, B>,
    hands: &mut Hands<B>,
    session: &mut Session,
    sink: &mut K,
    keeper: &mut P,
    path: Option<&str>,
    reporters: &mut Vec<Box<dyn Reporter + Send>>,
    asked: Command,
    number: u32,
    offset: u64,
) -> Option<Status>
    requires allowed { IsCommand asked }
    requires named { session.old.setting.saves ≡ is_some path }
    ensures named { IfNone result (session.new.setting ≡ session.old.setting) }
    ensures turn { (course : Course) (stream rest : List ℕ) → IsAt course session.old number offset → IsFirst stream asked rest
        → IsTurn course stream (K.held sink.old) (one_behind course (length stream - length rest) session.new) (Some rest)
        (K.held sink.new) result }
    ensures work { (course : Course) (stream rest : List ℕ) → IsAt course session.old number offset → IsFirst stream asked rest
        → IsWork course stream (K.held sink.old) (one_behind course (length stream - length rest) session.new) (Some rest)
        (K.held sink.new) hands.new.seen result }
    ensures feeds { (course : Course) (stream rest : List ℕ) → IsAt course session.old number offset → IsFirst stream asked rest
        → IsTurnFed course stream (K.held sink.old) (one_behind course (length stream - length rest) session.new) (Some rest)
        (K.held sink.new)
        (path_told (P.kept keeper.old) (path_bytes path.entry)) (path_told (P.kept keeper.new) (path_bytes path.entry))
        (reporters.new.items ≡ reporters.old.items) (map (λ one. known one) reporters.old.items)
        (map (λ one. known one) reporters.new.items) result }
    ensures steady { steady_count (map (λ one. known one) reporters.new.items) ≡ steady_count (map (λ one. known one) reporters.old.items) }
    ensures others { KeepsOthers (path_bytes path.entry) (P.kept keeper.old) (P.kept keeper.new) }
    ensures rises { hands.old.seen ≤ hands.new.seen }
    ensures not_read_fault { result ≢ Some Status.ReadFault }
    ensures not_usage { result ≢ Some Status.Usage }
    ensures write_fault { result ≡ Some Status.WriteFault → Rose (K.faults sink.old) (K.faults sink.new) }
    ensures store_fault { result ≡ Some Status.StoreFault → Rose (P.faults keeper.old) (P.faults keeper.new) }
    ensures writes_never_fall { K.faults sink.old ≤ K.faults sink.new }
    ensures stores_never_fall { P.faults keeper.old ≤ P.faults keeper.new }
{
    one_reply();
    some_reply();
    one_first();
    one_answer();
    answers_keep_limits();
    match &asked {
        Command::Quit => Some(status_with(session.missing())),
        _ => reply(
            rt, alloc, desk, hands, session, sink, keeper, path, reporters, asked,
        ),
    }
}

/// Takes the next command from the stream, answers it and feeds the reporters, or says how the session ends.
pub fn turn<R: Wait, S: Source, K: Sink, P: Keeper, G: Gate, A: Ledger, B: Ledger>(
    rt: &R,
    alloc: Global,
    desk: &Desk<'_, SolveJob, G, A, B>,
    hands: &mut Hands<B>,
    session: &mut Session,
    commands: &mut Commands,
    source: &mut S,
    sink: &mut K,
    keeper: &mut P,
    path: Option<&str>,
    reporters: &mut Vec<Box<dyn Reporter + Send>>,
) -> Option<Status>
    requires named { session.old.setting.saves ≡ is_some path }
    ensures named { IfNone result (session.new.setting ≡ session.old.setting) }
    ensures turn { IfSome (stream_left commands.old (S.left source.old)) (λ stream.
        IsTurn (course_of commands.old session.old) stream (K.held sink.old) (course_of commands.new session.new)
        (stream_left commands.new (S.left source.new)) (K.held sink.new) result) }
    ensures work { IfSome (stream_left commands.old (S.left source.old)) (λ stream.
        IsWork (course_of commands.old session.old) stream (K.held sink.old) (course_of commands.new session.new)
        (stream_left commands.new (S.left source.new)) (K.held sink.new) hands.new.seen result) }
    ensures feeds { IfSome (stream_left commands.old (S.left source.old)) (λ stream.
        IsTurnFed (course_of commands.old session.old) stream (K.held sink.old) (course_of commands.new session.new)
        (stream_left commands.new (S.left source.new)) (K.held sink.new)
        (path_told (P.kept keeper.old) (path_bytes path.entry)) (path_told (P.kept keeper.new) (path_bytes path.entry))
        (reporters.new.items ≡ reporters.old.items) (map (λ one. known one) reporters.old.items)
        (map (λ one. known one) reporters.new.items) result) }
    ensures steady { steady_count (map (λ one. known one) reporters.new.items) ≡ steady_count (map (λ one. known one) reporters.old.items) }
    ensures others { KeepsOthers (path_bytes path.entry) (P.kept keeper.old) (P.kept keeper.new) }
    ensures rises { hands.old.seen ≤ hands.new.seen }
    ensures counted { IfNone result (IsOneMore commands.old.taken commands.new.taken) }
    ensures reads { ReadsFront (stream_left commands.old (S.left source.old)) (stream_left commands.new (S.left source.new)) }
    ensures not_usage { result ≢ Some Status.Usage }
    ensures read_fault { result ≡ Some Status.ReadFault → Rose (S.faults source.old) (S.faults source.new) }
    ensures write_fault { result ≡ Some Status.WriteFault → Rose (K.faults sink.old) (K.faults sink.new) }
    ensures store_fault { result ≡ Some Status.StoreFault → Rose (P.faults keeper.old) (P.faults keeper.new) }
    ensures reads_never_fall { S.faults source.old ≤ S.faults source.new }
    ensures writes_never_fall { K.faults sink.old ≤ K.faults sink.new }
    ensures stores_never_fall { P.faults keeper.old ≤ P.faults keeper.new }
{
    one_reply();
    let number = commands.taken() + 1;
    let offset = commands.offset();
    match next_command(alloc, commands, source) {
        Ok(Taken::Command(asked)) => follow(
            rt, alloc, desk, hands, session, sink, keeper, path, reporters, asked, number, offset,
        ),
        Ok(Taken::Malformed { command, offset }) => Some(refuse(alloc, sink, command, offset)),
        Ok(Taken::End) => Some(status_with(session.missing())),
        Ok(Taken::Full) => Some(Status::Full),
        Ok(Taken::ReadFault) => Some(Status::ReadFault),
        Err(_) => Some(Status::NoMemory),
    }
}
