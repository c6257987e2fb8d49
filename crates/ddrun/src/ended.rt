//! A run by the words of the command line, and how it ends. `main` has no other way to end than by what `of_run` gives.
ghost use Rattle.std.specs.Prelude.{◌≡◌, ◌≢◌, IfErr, IfOk, map, string_bytes};
ghost use Rattle.std.specs.Io.KnownBytes.{IsAtEnd};
ghost use Rattle.std.specs.Option.{option_map, unwrap_or};
ghost use Rattle.std.specs.Process.{exit_status};
ghost use Rattle.dd_run.specs.Complaints.{code_of, complaint_of};

use dd_run::{Status, complaint_of, ddrun};
use edge_io::{Sink, Source};
use std::alloc::{AllocError, Global};
use std::io::Eprint;
use std::process::{ExitCode, Termination};
use std::rt::Env;
use std::{env, io};

/// How the run has ended.
#[derive(Drop)]
pub struct Ended {
    status: Status,
}

impl Ended {
    /// The run on the words behind the program's name, from the source into the sink.
    pub fn of_run<R: Env + AllocGlobal, S: Source, K: Sink>(
        rt: &R,
        source: &mut S,
        sink: &mut K,
    ) -> Ended
        ensures read { result.status ≡ Status.Ok → IsAtEnd (S.left source.new) }
    {
        let status = match arguments(rt) {
            Ok(args) => run_on(rt.alloc(), &args, source, sink),
            Err(status) => status,
        };
        Ended { status }
    }
}

impl Termination for Ended {
    // The complaint goes to standard error. Where that fails too, the exit status alone says what happened.
    fn report<R: Eprint>(self, rt: &R) -> ExitCode
        ensures exit { exit_status result ≡ unwrap_or (option_map code_of (complaint_of self.status)) 0 }
    {
        let Some(complaint) = complaint_of(self.status) else {
            return ExitCode::from(0);
        };
        let _ = eprintln!(rt; "{complaint}");
        ExitCode::from(complaint.code())
    }
}

// The words behind the program's name. A word that isn't UTF-8 asks for nothing that the program does.
fn arguments<R: Env + AllocGlobal>(rt: &R) -> Result<Vec<String>, Status>
    ensures { IfErr result (λ status. status ≢ Status.Ok) }
{
    let args = match env::args(rt) {
        Ok(args) => args,
        Err(error) if error.kind() == io::ErrorKind::OutOfMemory => return Err(Status::Memory),
        Err(_) => return Err(Status::Usage),
    };
    args.skip(1).collect(rt.alloc()).map_err(|_| Status::Memory)
}

fn run_on<S: Source, K: Sink>(
    alloc: Global,
    args: &[String],
    source: &mut S,
    sink: &mut K,
) -> Status
    ensures read { result ≡ Status.Ok → IsAtEnd (S.left source.new) }
{
    match as_words(alloc, args) {
        Ok(words) => ddrun(alloc, &words, source, sink).status,
        Err(AllocError) => Status::Memory,
    }
}

fn as_words(alloc: Global, args: &[String]) -> Result<Vec<&str>, AllocError>
    ensures { IfOk result (λ words. map (λ word. word.now) words.items ≡ map string_bytes args.now) }
{
    let mut words = Vec::new(alloc);
    'each: for arg in args {
        words.push(arg.as_str())?;
    }
    Ok(words)
}
