//! The leader of a pool: it answers the commands of a stream, one after the other.
ghost use Rattle.std.specs.Prelude.{◌≡◌, ◌≢◌, IfSome, map};
ghost use Rattle.io_ports.specs.Counts.{Rose};
ghost use Rattle.reporters.specs.Feeding.{steady_count};
ghost use Rattle.heapan_top.specs.Fed.{IsFed};
ghost use Rattle.heapan_top.specs.Headline.{Answers, ReadsFront};
ghost use Rattle.heapan_top.specs.Parts.{path_bytes, setting_of};
ghost use Rattle.heapan_top.specs.Replies.{beginning};
ghost use Rattle.heapan_top.specs.Stores.{KeepsOthers, path_told};
ghost use Rattle.heapan_top.specs.Work.{AppendsCounted};

use crate::laws::{one_reply, some_reply};
use crate::status::Status;
use crate::turns::turn;
use command_words::Asked;
use io_ports::{Gate, Keeper, Sink, Source};
use reporters::Reporter;
use session_lines::Commands;
use session_replies::{Session, SolveJob, StoredAnswers};
use shape_data::exact::share;
use std::alloc::Global;
use std::sync::ledger::Ledger;
use std::sync::{Arc, Wait};
use worker_pool::desk::Desk;
use worker_pool::pool::Leader;
use worker_pool::shares::Hands;

/// Answers commands of the stream that the source holds, one after the other, until the session ends. A reply is written, and
/// the reporters are fed, before the next command is read.
fn answer_commands<R: Wait, S: Source, K: Sink, P: Keeper, G: Gate, A: Ledger, B: Ledger>(
    rt: &R,
    alloc: Global,
    desk: &Desk<'_, SolveJob, G, A, B>,
    hands: &mut Hands<B>,
    loaded: &Arc<StoredAnswers>,
    source: &mut S,
    sink: &mut K,
    keeper: &mut P,
    path: Option<&str>,
    reporters: &mut Vec<Box<dyn Reporter + Send>>,
) -> Status
    ensures answers { IfSome (S.left source.old) (λ stream. Answers (beginning (setting_of loaded.now.value path.entry)) stream
        (K.held sink.old) (K.held sink.new) result) }
    ensures work { IfSome (S.left source.old) (λ stream. AppendsCounted (setting_of loaded.now.value path.entry) stream (K.held sink.old)
        (K.held sink.new) hands.new.seen) }
    ensures feeds { IfSome (S.left source.old) (λ stream. IsFed (beginning (setting_of loaded.now.value path.entry)) stream
        (K.held sink.old) (K.held sink.new)
        (path_told (P.kept keeper.old) (path_bytes path.entry)) (path_told (P.kept keeper.new) (path_bytes path.entry))
        (reporters.new.items ≡ reporters.old.items) (map (λ one. known one) reporters.old.items)
        (map (λ one. known one) reporters.new.items) result) }
    ensures steady { steady_count (map (λ one. known one) reporters.new.items) ≡ steady_count (map (λ one. known one) reporters.old.items) }
    ensures reads { ReadsFront (S.left source.old) (S.left source.new) }
    ensures others { KeepsOthers (path_bytes path.entry) (P.kept keeper.old) (P.kept keeper.new) }
    ensures usage { result ≢ Status.Usage }
    ensures read_fault { result ≡ Status.ReadFault → Rose (S.faults source.old) (S.faults source.new) }
    ensures write_fault { result ≡ Status.WriteFault → Rose (K.faults sink.old) (K.faults sink.new) }
    ensures store_fault { result ≡ Status.StoreFault → Rose (P.faults keeper.old) (P.faults keeper.new) }
{
    one_reply();
    some_reply();
    let Ok(loaded) = share(loaded) else {
        return Status::NoMemory;
    };
    let mut session = Session::new(alloc, loaded, path.is_some());
    let mut commands = Commands::new(alloc);
    loop {
        if let Some(status) = turn(
            rt,
            alloc,
            desk,
            hands,
            &mut session,
            &mut commands,
            source,
            sink,
            keeper,
            path,
            reporters,
        ) {
            return status;
        }
    }
}

/// Who answers a stream: which entries were loaded from the store, from where the stream comes, where the replies go, what the words ask
/// for, so where what is saved goes, who is fed the entries of reports, and how the session ended.
#[derive(Drop)]
pub struct Answering<'a, S: Source, K: Sink, P: Keeper> {
    pub loaded: &'a Arc<StoredAnswers>,
    pub source: &'a mut S,
    pub sink: &'a mut K,
    pub keeper: &'a mut P,
    pub asked: &'a Asked<'a>,
    pub reporters: &'a mut Vec<Box<dyn Reporter + Send>>,
    pub status: Status,
}

impl<'a, S: Source, K: Sink, P: Keeper> Answering<'a, S, K, P> {
    /// Nothing is answered yet.
    pub fn new(
        loaded: &'a Arc<StoredAnswers>,
        source: &'a mut S,
        sink: &'a mut K,
        keeper: &'a mut P,
        asked: &'a Asked<'a>,
        reporters: &'a mut Vec<Box<dyn Reporter + Send>>,
    ) -> Self
        ensures loaded { result.loaded ≡ loaded.entry }
        ensures source { result.source ≡ source.entry }
        ensures sink { result.sink ≡ sink.entry }
        ensures keeper { result.keeper ≡ keeper.entry }
        ensures asked { result.asked ≡ asked.entry }
        ensures reporters { result.reporters ≡ reporters.entry }
    {
        Answering {
            loaded,
            source,
            sink,
            keeper,
            asked,
            reporters,
            status: Status::NoMemory,
        }
    }
}

impl<'a, S: Source, K: Sink, P: Keeper, G: Gate> Leader<SolveJob, G> for Answering<'a, S, K, P> {
    ghost use Rattle.std.specs.Prelude.{◌≡◌, map};
    ghost use Rattle.heapan_top.specs.Parts.{IsLed, path_bytes, setting_of};

    ghost led = { λ before after seen.
        (after.source.ghost_name ≡ before.source.ghost_name) × (after.sink.ghost_name ≡ before.sink.ghost_name)
        × (after.keeper.ghost_name ≡ before.keeper.ghost_name) × (after.reporters.ghost_name ≡ before.reporters.ghost_name)
        × IsLed (setting_of before.loaded.now.value before.asked.now.store) (path_bytes before.asked.now.store) (S.left before.source.now)
        (S.left after.source.now)
        (K.held before.sink.now) (K.held after.sink.now) (P.kept before.keeper.now) (P.kept after.keeper.now)
        (S.faults before.source.now) (S.faults after.source.now) (K.faults before.sink.now) (K.faults after.sink.now)
        (P.faults before.keeper.now) (P.faults after.keeper.now) (after.reporters.now.items ≡ before.reporters.now.items)
        (map (λ one. (Reporter-box one).known one.value) before.reporters.now.items)
        (map (λ one. (Reporter-box one).known one.value) after.reporters.now.items)
        after.status seen };

    fn lead<R: Wait, A: Ledger, B: Ledger>(
        &mut self,
        rt: &R,
        alloc: Global,
        desk: &Desk<'_, SolveJob, G, A, B>,
        hands: &mut Hands<B>,
    ) {
        self.status = answer_commands(
            rt,
            alloc,
            desk,
            hands,
            self.loaded,
            self.source,
            self.sink,
            self.keeper,
            self.asked.store,
            self.reporters,
        );
    }
}
