//! A session: the files that are present, and how many procedures without a spec the last report told of. It answers one command after
//! another, at a desk where programs are analysed; each answer is what the files and the loaded entries alone would give.
ghost use Rattle.std.specs.Prelude.{◌≡◌, ◌≢◌, ◌≤◌, Result, Ok, All, IfOk, OnOk};
ghost use Rattle.project_form.specs.Files.{put_refusal};
ghost use Rattle.project_form.specs.Reads.{Reads};
ghost use Rattle.session_lines.specs.Lines.{IsCommand};
ghost use Rattle.session_lines.specs.declared.command.Command.TheVariants as command;
ghost use Rattle.session_replies.specs.Answers.{Answers, IsAnswered, nothing_present, text_of, with_put};
ghost use Rattle.session_replies.specs.Entries.{Feeds};
ghost use Rattle.session_replies.specs.Parts.{IsFormed, answer_in, bytes_saved};
ghost use Rattle.session_replies.specs.Saves.{Saves};
ghost use Rattle.session_replies.specs.Texts.{program_total};
ghost use Rattle.session_replies.specs.Work.{IsWorked, count_reached};
ghost use Rattle.session_replies.specs.PlainAnswers.Solving.{IsStoredEntry};
ghost use Rattle.summary_book.specs.declared.aims.Aim.TheVariants as aim;
ghost use Rattle.project_form.specs.declared.fault.Refused.{Refused};
ghost use Rattle.shape_data.specs.declared.program.Program.{Program};

use crate::plain_answers::{SolveJob, StoredAnswers};
use crate::project_read::Found;
use crate::reply::Reply;
use crate::texts::{
    block_text, drop_text, error_text, make_report, make_store, ok_text, refused_text, total_text,
};
use io_ports::Gate;
use loaded_answers::LoadedAnswers;
use project_form::laws::{limits_are_kept, one_answer};
use project_form::{ProgramFault, Project, PutFault};
use session_generator::generate;
use session_lines::Command;
use shape_data::Name;
use std::alloc::{AllocError, Global};
use std::marker::Model;
use std::sync::ledger::Ledger;
use std::sync::{Arc, Wait};
use worker_pool::desk::Desk;
use worker_pool::shares::Hands;

/// The code of a file of more than 1,048,576 bytes.
const TOO_LONG: u16 = 143;

/// The code of a `save` where there is no store to save to.
const NO_STORE: u16 = 147;

/// A session. Contracts see what is present, and what the session began with.
#[derive(Drop)]
pub struct Session {
    project: Project,
    missing: usize,
    loaded: Arc<StoredAnswers>,
    saves: bool,
}

impl Model for Session {
    ghost use Rattle.project_form.specs.Files.{AreFiles};
    ghost use Rattle.project_form.specs.Kept.{sources_of};
    ghost use Rattle.session_replies.specs.Answers.{Present};

    ghost Value = { Present };

    ghost view = { λ session. record {
      files = sources_of session.project;
      missing = session.missing;
      setting = record { loaded = session.loaded.value; saves = session.saves };
    } };

    ghost invariant = { λ session. AreFiles (sources_of session.project) };
}

impl Session {
    /// No file is present. These entries were loaded from the store, and there is one to save to or not.
    pub fn new(alloc: Global, loaded: Arc<StoredAnswers>, saves: bool) -> Self
        ensures { result ≡ nothing_present (record { loaded = loaded.value; saves = saves }) }
    {
        limits_are_kept();
        Session {
            project: Project::new(alloc),
            missing: 0,
            loaded,
            saves,
        }
    }

    /// How many procedures without a spec the last report told of; none before the first.
    pub fn missing(&self) -> usize
        ensures { result ≡ self.now.missing }
    {
        self.missing
    }

    /// The entries that were loaded.
    fn loaded(&self) -> &LoadedAnswers
        ensures value { result.now ≡ self.now.setting.loaded }
        ensures stored { All IsStoredEntry self.now.setting.loaded }
    {
        self.loaded.answers()
    }

    /// What the files are.
    fn found(&mut self, alloc: Global) -> Result<Found, AllocError>
        ensures same { self.new ≡ self.old }
        ensures found { IfOk result (λ found. Reads self.old.files (answer_in found)) }
        ensures formed { IfOk result IsFormed }
    {
        match self.project.program(alloc) {
            Ok(program) => Ok(Found::Whole(program)),
            Err(ProgramFault::Refused(refused)) => Ok(Found::NoProgram(refused)),
            Err(ProgramFault::OutOfMemory) => Err(AllocError),
        }
    }

    /// Puts a file, or says for which code it is refused.
    fn place(
        &mut self,
        alloc: Global,
        name: &Name,
        bytes: Vec<u8>,
    ) -> Result<Option<u16>, AllocError>
        ensures refusal { IfOk result (λ refusal. refusal ≡ put_refusal name.now bytes.items self.old.files) }
        ensures present { OnOk result (self.new ≡ with_put name.now bytes.items self.old) }
    {
        limits_are_kept();
        match self.project.put(alloc, name, bytes) {
            Ok(()) => Ok(None),
            Err(PutFault::Code(code)) => Ok(Some(code)),
            Err(PutFault::OutOfMemory) => Err(AllocError),
        }
    }

    /// Puts a file.
    fn put(&mut self, alloc: Global, name: &Name, bytes: Vec<u8>) -> Result<Vec<u8>, AllocError>
        ensures answers { IfOk result (λ text. Answers self.old (command.Put name.now bytes.items) text.items self.new) }
    {
        match self.place(alloc, name, bytes)? {
            None => ok_text(alloc),
            Some(code) => error_text(alloc, code),
        }
    }

    /// Drops a file.
    fn drop_file(&mut self, alloc: Global, name: &Name) -> Result<Vec<u8>, AllocError>
        ensures answers { IfOk result (λ text. Answers self.old (command.DropFile name.now) text.items self.new) }
    {
        limits_are_kept();
        let there = self.project.drop_file(name);
        drop_text(alloc, there)
    }

    /// Whether the files are a program, which is met then; whoever waits at the desk begins to solve it.
    fn start<R: Wait, G: Gate, A: Ledger, B: Ledger>(
        &mut self,
        rt: &R,
        alloc: Global,
        desk: &Desk<'_, SolveJob, G, A, B>,
    ) -> Result<Vec<u8>, AllocError>
        ensures answers { IfOk result (λ text. Answers self.old command.Start text.items self.new) }
    {
        match self.found(alloc)? {
            Found::Whole(program) => {
                desk.start(rt, alloc, &program)?;
                ok_text(alloc)
            }
            Found::NoProgram(refused) => refused_text(alloc, &refused),
        }
    }

    /// The block of a procedure.
    fn show<R: Wait, G: Gate, A: Ledger, B: Ledger>(
        &mut self,
        rt: &R,
        alloc: Global,
        desk: &Desk<'_, SolveJob, G, A, B>,
        hands: &mut Hands<B>,
        name: &Name,
    ) -> Result<Vec<u8>, AllocError>
        ensures answers { IfOk result (λ text. Answers self.old (command.Show name.now) text.items self.new) }
        ensures worked { OnOk result (IsWorked self.old (command.Show name.now) hands.new.seen) }
        ensures rises { hands.old.seen ≤ hands.new.seen }
    {
        one_answer();
        match self.found(alloc)? {
            Found::Whole(program) => {
                block_text(rt, alloc, desk, hands, self.loaded(), &program, name)
            }
            Found::NoProgram(refused) => refused_text(alloc, &refused),
        }
    }

    /// The report on all procedures, and its entries.
    fn report<R: Wait, G: Gate, A: Ledger, B: Ledger>(
        &mut self,
        rt: &R,
        alloc: Global,
        desk: &Desk<'_, SolveJob, G, A, B>,
        hands: &mut Hands<B>,
    ) -> Result<Reply, AllocError>
        ensures answers { IfOk result (λ reply. Answers self.old command.Report reply.text.items self.new) }
        ensures feeds { IfOk result (λ reply. Feeds self.old command.Report reply.entries.items) }
        ensures saves { IfOk result (λ reply. Saves self.old command.Report (bytes_saved reply.saved)) }
        ensures worked { OnOk result (IsWorked self.old command.Report hands.new.seen) }
        ensures rises { hands.old.seen ≤ hands.new.seen }
    {
        one_answer();
        match self.found(alloc)? {
            Found::Whole(program) => {
                let report = make_report(rt, alloc, desk, hands, self.loaded(), &program)?;
                self.missing = report.missing;
                Ok(report.reply)
            }
            Found::NoProgram(refused) => Ok(Reply::of(refused_text(alloc, &refused)?)),
        }
    }

    /// What is known of all components as the bytes of the store, where there is one.
    fn save<R: Wait, G: Gate, A: Ledger, B: Ledger>(
        &mut self,
        rt: &R,
        alloc: Global,
        desk: &Desk<'_, SolveJob, G, A, B>,
        hands: &mut Hands<B>,
    ) -> Result<Reply, AllocError>
        ensures answers { IfOk result (λ reply. Answers self.old command.Save reply.text.items self.new) }
        ensures feeds { IfOk result (λ reply. Feeds self.old command.Save reply.entries.items) }
        ensures saves { IfOk result (λ reply. Saves self.old command.Save (bytes_saved reply.saved)) }
        ensures worked { OnOk result (IsWorked self.old command.Save hands.new.seen) }
        ensures rises { hands.old.seen ≤ hands.new.seen }
    {
        one_answer();
        if !self.saves {
            return Ok(Reply::of(error_text(alloc, NO_STORE)?));
        }
        match self.found(alloc)? {
            Found::Whole(program) => make_store(rt, alloc, desk, hands, self.loaded(), &program),
            Found::NoProgram(refused) => Ok(Reply::of(refused_text(alloc, &refused)?)),
        }
    }

    /// The total line of all procedures.
    fn total<R: Wait, G: Gate, A: Ledger, B: Ledger>(
        &mut self,
        rt: &R,
        alloc: Global,
        desk: &Desk<'_, SolveJob, G, A, B>,
        hands: &mut Hands<B>,
    ) -> Result<Vec<u8>, AllocError>
        ensures same { self.new ≡ self.old }
        ensures text { IfOk result (λ text. (answer : Result Program Refused) × Reads self.old.files answer
            × (text.items ≡ text_of (program_total self.old.setting.loaded) answer)) }
        ensures worked { OnOk result ((program : Program) → Reads self.old.files (Ok program)
            → count_reached program aim.All ≤ hands.new.seen) }
        ensures rises { hands.old.seen ≤ hands.new.seen }
    {
        one_answer();
        match self.found(alloc)? {
            Found::Whole(program) => { total_text(rt, alloc, desk, hands, self.loaded(), &program) }
            Found::NoProgram(refused) => refused_text(alloc, &refused),
        }
    }

    /// Puts the generated file of a number.
    fn gen_file<R: Wait, G: Gate, A: Ledger, B: Ledger>(
        &mut self,
        rt: &R,
        alloc: Global,
        desk: &Desk<'_, SolveJob, G, A, B>,
        hands: &mut Hands<B>,
        n: u32,
    ) -> Result<Vec<u8>, AllocError>
        requires some { 1 ≤ n }
        requires few { n ≤ 1000 }
        ensures answers { IfOk result (λ text. Answers self.old (command.Gen n) text.items self.new) }
        ensures worked { OnOk result (IsWorked self.old (command.Gen n) hands.new.seen) }
        ensures rises { hands.old.seen ≤ hands.new.seen }
    {
        let name = Name::of(alloc, b"gen.c")?;
        let bytes = generate(alloc, n)?;
        match self.place(alloc, &name, bytes)? {
            None => self.total(rt, alloc, desk, hands),
            Some(code) => error_text(alloc, code),
        }
    }

    /// The reply to a command that is not fed to reporters, and leaves the store as it is.
    fn text<R: Wait, G: Gate, A: Ledger, B: Ledger>(
        &mut self,
        rt: &R,
        alloc: Global,
        desk: &Desk<'_, SolveJob, G, A, B>,
        hands: &mut Hands<B>,
        asked: Command,
    ) -> Result<Vec<u8>, AllocError>
        requires answered { IsAnswered asked }
        requires allowed { IsCommand asked }
        requires no_report { asked ≢ command.Report }
        requires no_save { asked ≢ command.Save }
        ensures answers { IfOk result (λ text. Answers self.old asked text.items self.new) }
        ensures worked { OnOk result (IsWorked self.old asked hands.new.seen) }
        ensures rises { hands.old.seen ≤ hands.new.seen }
    {
        match asked {
            Command::Put { name, bytes } => self.put(alloc, &name, bytes.into_vec()),
            Command::PutTooLong { name: _, size: _ } => error_text(alloc, TOO_LONG),
            Command::DropFile { name } => self.drop_file(alloc, &name),
            Command::Start => self.start(rt, alloc, desk),
            Command::Show { proc } => self.show(rt, alloc, desk, hands, &proc),
            Command::Gen { n } => self.gen_file(rt, alloc, desk, hands, n),
            Command::Blank => Ok(Vec::new(alloc)),
            Command::Report | Command::Save | Command::Quit => unreachable!(),
        }
    }

    /// The reply to a command, which is not `quit`. What it tells of was answered at the desk, by whomever. Whoever takes it has to put the
    /// bytes that it saves into the store before the reply is written.
    ///
    /// # Errors
    ///
    /// Only want of memory; the session is then of no further use.
    pub fn reply<R: Wait, G: Gate, A: Ledger, B: Ledger>(
        &mut self,
        rt: &R,
        alloc: Global,
        desk: &Desk<'_, SolveJob, G, A, B>,
        hands: &mut Hands<B>,
        asked: Command,
    ) -> Result<Reply, AllocError>
        requires answered { IsAnswered asked }
        requires allowed { IsCommand asked }
        ensures answers { IfOk result (λ reply. Answers self.old asked reply.text.items self.new) }
        ensures feeds { IfOk result (λ reply. Feeds self.old asked reply.entries.items) }
        ensures saves { IfOk result (λ reply. Saves self.old asked (bytes_saved reply.saved)) }
        ensures worked { OnOk result (IsWorked self.old asked hands.new.seen) }
        ensures rises { hands.old.seen ≤ hands.new.seen }
    {
        match &asked {
            Command::Report => self.report(rt, alloc, desk, hands),
            Command::Save => self.save(rt, alloc, desk, hands),
            _ => Ok(Reply::of(self.text(rt, alloc, desk, hands, asked)?)),
        }
    }
}
