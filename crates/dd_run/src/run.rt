// The whole run: reads, answers, prints.
ghost use Rattle.std.specs.Prelude.{◌≡◌, ◌↔◌, ◌+◌, ◌≤◌, ℕ, [], ◌∷◌, None, Ok, IfErr, IfOk, OnErr, OnOk, ◌<◌, ◌^◌, length, map, take};
ghost use Rattle.std.specs.Io.KnownBytes.{IsAtEnd};
ghost use Rattle.edge_io.specs.Causes.{Rose};
ghost use Rattle.edge_io.specs.Content.{ConsumesAtMost};
ghost use Rattle.dd_engine.specs.Engine.{Adds, IsPlainHistory};
ghost use Rattle.dd_run.specs.Headline.{AllAnswered, AreRun, FirstAnswered, Headline, InputIs, IsDone, IsGood, IsHistoryOf};
ghost use Rattle.dd_run.specs.Ending.{AreRunnable, IsPrinted, IsRefused, IsRun, IsRunnable, IsRunnableScript, IsUnread, statement_of_entry, status_of, status_of_fault};
ghost use Rattle.dd_run.specs.Printed.{printed_names};
ghost use Rattle.script_read.specs.declared.script.Script.{Script as Session};
ghost use Rattle.dd_run.specs.Unbuilt.{first_unbuilt};
ghost use Rattle.dd_run.specs.Words.{command_of};
ghost use Rattle.script_read.specs.Scripts.{scripts, IsFew, SaysNames};
ghost use Rattle.std.specs.List.{AllByRecursion};

use crate::command::{Command, Usage, read_words};
use crate::print::{PrintFault, print_history};
use crate::status::{Ended, Status};
use crate::unbuilt::first_unbuilt;
use dd_engine::{History, PlainEngine};
use dd_names::{List, Name};
use edge_io::{ReadFault, Sink, Source, read_up_to};
use script_read::{MAX_INPUT, Script, ScriptFault, scripts};
use sql_ast::Statement;
use std::alloc::{AllocError, Global};

/// Does what the words of a command line ask for: reads a script from the source, answers its statements, and prints
/// the answers to the sink.
pub fn ddrun<S: Source, K: Sink>(
    alloc: Global,
    words: &[&str],
    source: &mut S,
    sink: &mut K,
) -> Ended
    ensures headline { Headline result.status (S.left source.old) result.history (K.held sink.old) (K.held sink.new) }

    // Each status has its cause.
    ensures usage { (result.status ≡ Status.Usage) ↔ (command_of (map (λ word. word.now) words.now) ≡ None) }
    ensures read_fault { result.status ≡ Status.ReadFault → Rose (S.faults source.old) (S.faults source.new) }
    ensures write_fault { result.status ≡ Status.WriteFault → Rose (K.faults sink.old) (K.faults sink.new) }
    ensures read { result.status ≡ Status.Ok → IsAtEnd (S.left source.new) }
    ensures bound { ConsumesAtMost (MAX_INPUT + 1) (S.left source.old) (S.left source.new) }

    // Where the words and the input are good and nothing fails, all is done unless there is no memory.
    ensures complete { ¬ (command_of (map (λ word. word.now) words.now) ≡ None) → IsGood (S.left source.old)
        → ¬ (Rose (S.faults source.old) (S.faults source.new)) → ¬ (Rose (K.faults sink.old) (K.faults sink.new)) → IsDone result.status }
{
    match read_words(words) {
        Ok(Command::Run) => match read_scripts(alloc, source) {
            Ok(scripts) => run_scripts(alloc, scripts, sink),
            Err(status) => nothing_done(alloc, status),
        },
        Err(Usage) => nothing_done(alloc, Status::Usage),
    }
}

fn nothing_done(alloc: Global, status: Status) -> Ended
    ensures status { result.status ≡ status }
    ensures history { result.history ≡ [] }
{
    Ended {
        status,
        history: List::new(alloc),
    }
}

// Reads the source to its end, or one byte past the greatest input.
fn read_scripts<S: Source>(alloc: Global, source: &mut S) -> Result<List<Script>, Status>
    ensures sessions { IfOk result (λ sessions. AreRun (S.left source.old) sessions) }
    ensures runnable { IfOk result (λ sessions. AreRunnable sessions) }
    ensures ended { OnOk result (IsAtEnd (S.left source.new)) }
    ensures bound { ConsumesAtMost (MAX_INPUT + 1) (S.left source.old) (S.left source.new) }
    ensures err { IfErr result (λ status. IsUnread status (S.left source.old) (S.faults source.old) (S.faults source.new)) }
{
    let bytes = match read_up_to(alloc, source, MAX_INPUT) {
        Ok(bytes) => bytes,
        Err(ReadFault::Failed) => return Err(Status::ReadFault),
        Err(ReadFault::Memory) => return Err(Status::Memory),
    };
    sessions_of(alloc, &bytes)
}

fn status_of_fault(fault: ScriptFault) -> Status
    ensures { result ≡ status_of_fault fault }
{
    match fault {
        ScriptFault::Memory => Status::Memory,
        fault => Status::BadScript { fault },
    }
}

// The sessions of an input.
fn good_sessions(alloc: Global, bytes: &[u8]) -> Result<List<Script>, Status>
    ensures read { IfOk result (λ sessions. scripts bytes.now ≡ Ok sessions) }
    ensures few { IfOk result (λ sessions. AllByRecursion IsFew sessions) }
    ensures named { IfOk result (λ sessions. AllByRecursion SaysNames sessions) }
    ensures refused { IfErr result (λ status. IsRefused status (scripts bytes.now)) }
{
    match scripts(alloc, bytes) {
        Ok(found) => Ok(found),
        Err(fault) => Err(status_of_fault(fault)),
    }
}

// The sessions of an input, if all of them is run.
fn sessions_of(alloc: Global, bytes: &[u8]) -> Result<List<Script>, Status>
    ensures read { IfOk result (λ sessions. scripts bytes.now ≡ Ok sessions) }
    ensures built { IfOk result (λ sessions. first_unbuilt sessions ≡ None) }
    ensures few { IfOk result (λ sessions. AllByRecursion IsFew sessions) }
    ensures named { IfOk result (λ sessions. AllByRecursion SaysNames sessions) }
    ensures refused { IfErr result (λ status. IsRefused status (scripts bytes.now)) }
{
    let found = match good_sessions(alloc, bytes) {
        Ok(found) => found,
        Err(status) => return Err(status),
    };
    match first_unbuilt(found.as_slice()) {
        Some((session, number)) => Err(Status::NotBuilt { session, number }),
        None => Ok(found),
    }
}

// Answers the sessions, and prints the answers where every statement has one.
fn run_scripts<K: Sink>(alloc: Global, scripts: List<Script>, sink: &mut K) -> Ended
    requires { AreRunnable scripts }
    ensures { IsRun result.status scripts result.history (K.held sink.old) (K.held sink.new) (K.faults sink.old) (K.faults sink.new) }
{
    let Answered { history, names } = answer_scripts(alloc, scripts);
    match names {
        Ok(names) => print_answered(alloc, names.as_slice(), history, sink),
        Err(AllocError) => Ended {
            status: Status::Memory,
            history,
        },
    }
}

fn print_answered<K: Sink>(alloc: Global, names: &[Name], history: History, sink: &mut K) -> Ended
    requires { length names.now < 2 ^ 32 }
    ensures history { result.history ≡ history }
    ensures printed { IsPrinted result.status (printed_names names.now history) (K.held sink.old) (K.held sink.new) (K.faults sink.old) (K.faults sink.new) }
{
    let printed = print_history(alloc, names, history.as_slice(), sink);
    Ended {
        status: status_of(printed),
        history,
    }
}

fn status_of(printed: Result<(), PrintFault>) -> Status
    ensures { result ≡ status_of printed }
{
    match printed {
        Ok(()) => Status::Ok,
        Err(PrintFault::WriteFault) => Status::WriteFault,
        Err(PrintFault::Memory) => Status::Memory,
    }
}

// The history of sessions, and their names where every statement has its entry.
#[derive(Drop)]
struct Answered {
    history: History,
    names: Result<List<Name>, AllocError>,
}

fn answer_scripts(alloc: Global, scripts: List<Script>) -> Answered
    requires { AreRunnable scripts }
    ensures history { IsHistoryOf scripts result.history }
    ensures names { IfOk result.names (λ names. names ≡ map (λ (script : Session). script.name) scripts) }
    ensures all { OnOk result.names (AllAnswered scripts result.history) }
    ensures first { FirstAnswered scripts result.history }
{
    match scripts.into_vec().pop() {
        Some(script) => answer_script(alloc, script),
        None => Answered {
            history: List::new(alloc),
            names: Ok(List::new(alloc)),
        },
    }
}

// Answers the only session.
fn answer_script(alloc: Global, script: Script) -> Answered
    requires { IsRunnableScript script }
    ensures said { IsPlainHistory result.history }
    ensures names { IfOk result.names (λ names. names ≡ script.name ∷ []) }
    ensures all { OnOk result.names (map statement_of_entry result.history ≡ script.statements) }
    ensures first { (n : ℕ) × (map statement_of_entry result.history ≡ take n script.statements) }
{
    let Script { name, statements } = script;
    let (history, answered) = answer_all(alloc, statements);
    Answered {
        history,
        names: named(alloc, name, answered),
    }
}

// The names, where all was answered.
fn named(
    alloc: Global,
    name: Name,
    answered: Result<(), AllocError>,
) -> Result<List<Name>, AllocError>
    ensures names { IfOk result (λ names. names ≡ name ∷ []) }
    ensures answered { OnOk result (answered ≡ Ok tt) }
{
    answered?;
    let mut names = List::new(alloc);
    names.push(name)?;
    Ok(names)
}

// Answers the statements one after another until there is no memory.
fn answer_all(alloc: Global, statements: List<Statement>) -> (History, Result<(), AllocError>)
    requires few { length statements ≤ 100000 }
    requires each { AllByRecursion IsRunnable statements }
    ensures said { IsPlainHistory result.0 }
    ensures all { OnOk result.1 (map statement_of_entry result.0 ≡ statements) }
    ensures first { (n : ℕ) × (map statement_of_entry result.0 ≡ take n statements) }
{
    let mut engine = PlainEngine::new(alloc);
    let answered = answer_each(&mut engine, statements);
    (engine.take(), answered)
}

fn answer_each(engine: &mut PlainEngine, statements: List<Statement>) -> Result<(), AllocError>
    requires fresh { engine.old ≡ [] }
    requires few { length statements ≤ 100000 }
    requires each { AllByRecursion IsRunnable statements }
    ensures said { IsPlainHistory engine.new }
    ensures all { OnOk result (map statement_of_entry engine.new ≡ statements) }
    ensures first { (n : ℕ) × (map statement_of_entry engine.new ≡ take n statements) }
{
    'statements: for statement in statements.into_vec() {
        if let Err(error) = answer(engine, statement) {
            return Err(error);
        }
    }
    Ok(())
}

// A statement that finds no memory is let go.
fn answer(engine: &mut PlainEngine, statement: Statement) -> Result<(), AllocError>
    requires room { length engine.old < 2 ^ 32 }
    requires runs { IsRunnable statement }
    ensures ok { OnOk result (Adds engine.old engine.new statement) }
    ensures err { OnErr result (engine.new ≡ engine.old) }
    ensures said { IsPlainHistory engine.new }
{
    match engine.answer(statement) {
        Ok(()) => Ok(()),
        Err((statement, error)) => {
            drop(statement);
            Err(error)
        }
    }
}
