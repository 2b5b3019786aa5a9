//! The top call: words, a source, a sink, a keeper, a gate and reporters in, and the replies and a status out. Its contract is the
//! headline: the bytes written answer the bytes read, whatever the threads did and whatever bytes the store has, reporters are fed what was
//! reported, the store is given what is known, and each status has its cause.
ghost use Rattle.std.specs.Prelude.{◌≡◌, ◌≢◌, ◌≤◌, Err, IfErr, IfSome, [], OnErr, OnOk, map};
ghost use Rattle.claim_core.specs.Told.{events_of};
ghost use Rattle.claim_laws.specs.Logs.{IsLegal, published, replay};
ghost use Rattle.io_ports.specs.Counts.{Rose};
ghost use Rattle.reporters.specs.Feeding.{steady_count};
ghost use Rattle.heapan_top.specs.Fed.{FeedsSession};
ghost use Rattle.heapan_top.specs.Headline.{
  AnswersOtherWords,
  AnswersSession,
  Appends,
  AppendsSome,
  AreRightWords,
  Completes,
  ReadsFront,
  store_named,
  word_bytes,
};
ghost use Rattle.heapan_top.specs.Laws.{HonestReplies, PrintsValid};
ghost use Rattle.heapan_top.specs.Parts.{IsLed, IsWriteEnd, path_bytes, setting_of};
ghost use Rattle.heapan_top.specs.Stores.{KeepsOthers, front_of, path_told, store_told};
ghost use Rattle.heapan_top.specs.Work.{CountsSession, IsClaimedOnce};
ghost use Rattle.session_replies.specs.Solving.{Solves};

use crate::laws::{honest_replies, one_opening, one_reply, printed_is_valid};
use crate::leading::Answering;
use crate::opening::{Opened, open};
use crate::outcome::Outcome;
use crate::status::Status;
use crate::turns::{write_end, written};
use claim_laws::claims_hold;
use command_words::{Asked, asked_by};
use io_ports::{Gate, Keeper, Sink, Source, write_all};
use reporters::Reporter;
use session_replies::{SolveJob, StoredAnswers};
use shape_data::exact::share;
use std::alloc::Global;
use std::sync::{Arc, Wait};
use std::thread::Threads;
use summary_book::Book;
use worker_pool::pool::{Joined, run_pool};

/// Answers words that the program does not take.
fn answer_other_words<K: Sink>(alloc: Global, sink: &mut K) -> Status
    ensures answers { AnswersOtherWords (K.held sink.old) (K.held sink.new) result }
    ensures write_fault { result ≡ Status.WriteFault → Rose (K.faults sink.old) (K.faults sink.new) }
{
    written(
        alloc,
        sink,
        b"usage: heapan session [--workers N] [--store PATH]\n",
        Status::Usage,
    )
}

/// How a call ended in which nothing was analysed.
fn nothing_done(alloc: Global, status: Status, reporters: Vec<Box<dyn Reporter + Send>>) -> Outcome
    ensures status { result.status ≡ status }
    ensures reporters { result.reporters ≡ reporters }
    ensures log { result.log.items ≡ [] }
    ensures solves { result.solves ≡ 0 }
{
    Outcome {
        status,
        log: Vec::new(alloc),
        solves: 0,
        reporters,
    }
}

/// Answers the stream that the source holds, at a pool over a book with nothing done, where these entries were loaded from the store.
fn answer_at_book<R: Threads + Wait + Sync, S: Source, K: Sink, P: Keeper, G: Gate + Sync>(
    rt: &R,
    alloc: Global,
    asked: &Asked<'_>,
    job: SolveJob,
    book: Book<SolveJob>,
    loaded: &Arc<StoredAnswers>,
    source: &mut S,
    sink: &mut K,
    keeper: &mut P,
    gate: &G,
    mut reporters: Vec<Box<dyn Reporter + Send>>,
) -> Outcome
    requires { book.log ≡ [] }
    ensures led { IsLed (setting_of loaded.now.value asked.now.store) (path_bytes asked.now.store) (S.left source.old) (S.left source.new)
        (K.held sink.old) (K.held sink.new)
        (P.kept keeper.old) (P.kept keeper.new) (S.faults source.old) (S.faults source.new) (K.faults sink.old) (K.faults sink.new)
        (P.faults keeper.old) (P.faults keeper.new)
        (result.reporters.items ≡ reporters.items) (map (λ one. known one) reporters.items)
        (map (λ one. known one) result.reporters.items) result.status result.solves }
    ensures legal { IsLegal Solves (events_of result.log.items) }
    ensures idle { (replay (events_of result.log.items)).out ≡ [] }
    ensures solves { result.solves ≡ published (events_of result.log.items) }
{
    let mut leader = Answering::new(loaded, source, sink, keeper, asked, &mut reporters);
    let joined = run_pool(rt, alloc, asked.workers, job, gate, book, &mut leader);
    let Answering {
        loaded: _,
        source: _,
        sink: _,
        keeper: _,
        asked: _,
        reporters: _,
        status,
    } = leader;
    match joined {
        Ok(
            Joined {
                book,
                solves,
                seen: _,
            },
        ) => Outcome {
            status,
            log: book.into_log(),
            solves,
            reporters,
        },
        Err(_) => nothing_done(alloc, Status::NoMemory, reporters),
    }
}

/// Answers the stream that the source holds, with so many workers beside the leader, where these entries were loaded from the store.
fn answer_commands_at_pool<R: Threads + Wait + Sync, S: Source, K: Sink, P: Keeper, G: Gate + Sync>(
    rt: &R,
    alloc: Global,
    asked: &Asked<'_>,
    loaded: Arc<StoredAnswers>,
    source: &mut S,
    sink: &mut K,
    keeper: &mut P,
    gate: &G,
    reporters: Vec<Box<dyn Reporter + Send>>,
) -> Outcome
    ensures led { IsLed (setting_of loaded.value asked.now.store) (path_bytes asked.now.store) (S.left source.old) (S.left source.new)
        (K.held sink.old) (K.held sink.new)
        (P.kept keeper.old) (P.kept keeper.new) (S.faults source.old) (S.faults source.new) (K.faults sink.old) (K.faults sink.new)
        (P.faults keeper.old) (P.faults keeper.new)
        (result.reporters.items ≡ reporters.items) (map (λ one. known one) reporters.items)
        (map (λ one. known one) result.reporters.items) result.status result.solves }
    ensures legal { IsLegal Solves (events_of result.log.items) }
    ensures idle { (replay (events_of result.log.items)).out ≡ [] }
    ensures solves { result.solves ≡ published (events_of result.log.items) }
{
    let Ok(book) = Book::new(alloc) else {
        return nothing_done(alloc, Status::NoMemory, reporters);
    };
    let Ok(own) = share(&loaded) else {
        return nothing_done(alloc, Status::NoMemory, reporters);
    };
    let job = SolveJob::new(own);
    answer_at_book(
        rt, alloc, asked, job, book, &loaded, source, sink, keeper, gate, reporters,
    )
}

/// Writes the line that the store is none, where it is none, or says how the session ends for a fault.
fn write_front<K: Sink>(alloc: Global, sink: &mut K, unread: bool) -> Result<(), Status>
    ensures written { OnOk result (Appends (K.held sink.old) (K.held sink.new) (front_of unread)) }
    ensures cut { OnErr result (AppendsSome (K.held sink.old) (K.held sink.new) (front_of unread)) }
    ensures status { IfErr result IsWriteEnd }
    ensures write_fault { result ≡ Err Status.WriteFault → Rose (K.faults sink.old) (K.faults sink.new) }
    ensures never_falls { K.faults sink.old ≤ K.faults sink.new }
{
    if !unread {
        return Ok(());
    }
    match write_all(alloc, sink, b"store unread\n") {
        Ok(()) => Ok(()),
        Err(fault) => Err(write_end(fault)),
    }
}

/// Reads the store, if one is named, and answers the stream that the source holds.
fn answer_stream<R: Threads + Wait + Sync, S: Source, K: Sink, P: Keeper, G: Gate + Sync>(
    rt: &R,
    alloc: Global,
    asked: &Asked<'_>,
    source: &mut S,
    sink: &mut K,
    keeper: &mut P,
    gate: &G,
    reporters: Vec<Box<dyn Reporter + Send>>,
) -> Outcome
    ensures answers { IfSome (store_told (P.kept keeper.old) (path_bytes asked.now.store)) (λ store. IfSome (S.left source.old) (λ stream.
        AnswersSession store stream (K.held sink.old) (K.held sink.new) result.status)) }
    ensures reads { ReadsFront (S.left source.old) (S.left source.new) }
    ensures usage { result.status ≢ Status.Usage }
    ensures read_fault { result.status ≡ Status.ReadFault → Rose (S.faults source.old) (S.faults source.new) }
    ensures write_fault { result.status ≡ Status.WriteFault → Rose (K.faults sink.old) (K.faults sink.new) }
    ensures store_fault { result.status ≡ Status.StoreFault → Rose (P.faults keeper.old) (P.faults keeper.new) }
    ensures legal { IsLegal Solves (events_of result.log.items) }
    ensures idle { (replay (events_of result.log.items)).out ≡ [] }
    ensures solves { result.solves ≡ published (events_of result.log.items) }
    ensures counted { IfSome (store_told (P.kept keeper.old) (path_bytes asked.now.store)) (λ store. IfSome (S.left source.old) (λ stream.
        CountsSession store stream (K.held sink.old) (K.held sink.new) result.solves)) }
    ensures fed { IfSome (store_told (P.kept keeper.old) (path_bytes asked.now.store)) (λ store. IfSome (S.left source.old) (λ stream.
        FeedsSession store stream (K.held sink.old) (K.held sink.new) (path_told (P.kept keeper.old) (path_bytes asked.now.store))
        (path_told (P.kept keeper.new) (path_bytes asked.now.store))
        (result.reporters.items ≡ reporters.items) (map (λ one. known one) reporters.items)
        (map (λ one. known one) result.reporters.items) result.status)) }
    ensures steady { steady_count (map (λ one. known one) result.reporters.items) ≡ steady_count (map (λ one. known one) reporters.items) }
    ensures others { KeepsOthers (path_bytes asked.now.store) (P.kept keeper.old) (P.kept keeper.new) }
{
    one_opening();
    let Opened { loaded, unread } = match open(alloc, keeper, asked.store) {
        Ok(opened) => opened,
        Err(status) => return nothing_done(alloc, status, reporters),
    };
    match write_front(alloc, sink, unread) {
        Ok(()) => answer_commands_at_pool(
            rt, alloc, asked, loaded, source, sink, keeper, gate, reporters,
        ),
        Err(status) => nothing_done(alloc, status, reporters),
    }
}

/// Reads commands from the source, and writes the replies to the sink. Components are analysed by as many workers as the words ask for,
/// beside the thread that calls; each enters the gate between a claim and its solving. When the reply to a report is written, its entries
/// are offered to the reporters, from the thread that calls. Where the words name a store, the keeper is asked for it first, and what it
/// has answers keys that are met again; a command to save replaces it before its reply is written.
pub fn run<R: Threads + Wait + Sync, S: Source, K: Sink, P: Keeper, G: Gate + Sync>(
    rt: &R,
    alloc: Global,
    words: &[&str],
    source: &mut S,
    sink: &mut K,
    keeper: &mut P,
    gate: &G,
    reporters: Vec<Box<dyn Reporter + Send>>,
) -> Outcome
    ensures replies { AreRightWords (word_bytes words.now)
        → IfSome (store_told (P.kept keeper.old) (store_named (word_bytes words.now))) (λ store. IfSome (S.left source.old) (λ stream.
        AnswersSession store stream (K.held sink.old) (K.held sink.new) result.status)) }
    ensures valid { PrintsValid }
    ensures honest { HonestReplies }
    ensures reads { ReadsFront (S.left source.old) (S.left source.new) }
    ensures other_words { (AreRightWords (word_bytes words.now) → ⊥)
        → AnswersOtherWords (K.held sink.old) (K.held sink.new) result.status }
    ensures untouched { (AreRightWords (word_bytes words.now) → ⊥) → (source.new ≡ source.old) × (keeper.new ≡ keeper.old)
        × (result.reporters ≡ reporters) }

    // What the reporters were fed: the entries of each report on a program, when its reply was written; steady ones stay. And what the
    // store was given: what is known of the program, before the reply to each command to save was written; no other path changes.
    ensures fed { AreRightWords (word_bytes words.now)
        → IfSome (store_told (P.kept keeper.old) (store_named (word_bytes words.now))) (λ store. IfSome (S.left source.old) (λ stream.
        FeedsSession store stream (K.held sink.old) (K.held sink.new)
        (path_told (P.kept keeper.old) (store_named (word_bytes words.now)))
        (path_told (P.kept keeper.new) (store_named (word_bytes words.now)))
        (result.reporters.items ≡ reporters.items) (map (λ one. known one) reporters.items)
        (map (λ one. known one) result.reporters.items) result.status)) }
    ensures steady { steady_count (map (λ one. known one) result.reporters.items) ≡ steady_count (map (λ one. known one) reporters.items) }
    ensures others { KeepsOthers (store_named (word_bytes words.now)) (P.kept keeper.old) (P.kept keeper.new) }

    // What was done for the replies: the log is that of all claims and their ends.
    ensures legal { IsLegal Solves (events_of result.log.items) }
    ensures idle { (replay (events_of result.log.items)).out ≡ [] }
    ensures solves { result.solves ≡ published (events_of result.log.items) }
    ensures counted { AreRightWords (word_bytes words.now)
        → IfSome (store_told (P.kept keeper.old) (store_named (word_bytes words.now))) (λ store. IfSome (S.left source.old) (λ stream.
        CountsSession store stream (K.held sink.old) (K.held sink.new) result.solves)) }
    ensures once { IsClaimedOnce (events_of result.log.items) }
    ensures no_log { (AreRightWords (word_bytes words.now) → ⊥) → result.log.items ≡ [] }

    // Which status comes when, where the replies don't say it. Want of memory may come at any time.
    ensures usage { result.status ≡ Status.Usage → AreRightWords (word_bytes words.now) → ⊥ }
    ensures read_fault { result.status ≡ Status.ReadFault → Rose (S.faults source.old) (S.faults source.new) }
    ensures write_fault { result.status ≡ Status.WriteFault → Rose (K.faults sink.old) (K.faults sink.new) }
    ensures store_fault { result.status ≡ Status.StoreFault → Rose (P.faults keeper.old) (P.faults keeper.new) }
    ensures complete { (Rose (S.faults source.old) (S.faults source.new) → ⊥)
        → (Rose (K.faults sink.old) (K.faults sink.new) → ⊥)
        → (Rose (P.faults keeper.old) (P.faults keeper.new) → ⊥)
        → IfSome (store_told (P.kept keeper.old) (store_named (word_bytes words.now))) (λ store. IfSome (S.left source.old) (λ stream.
        Completes (word_bytes words.now) store stream result.status)) }
{
    one_reply();
    one_opening();
    printed_is_valid();
    honest_replies();
    claims_hold::<SolveJob>();
    match asked_by(alloc, words) {
        Ok(Some(asked)) => answer_stream(rt, alloc, &asked, source, sink, keeper, gate, reporters),
        Ok(None) => nothing_done(alloc, answer_other_words(alloc, sink), reporters),
        Err(_) => nothing_done(alloc, Status::NoMemory, reporters),
    }
}
