// What the program says on standard error, and the status that it ends with.
ghost use Rattle.std.specs.Prelude.{◌≡◌, Some};
ghost use Rattle.dd_run.specs.Complaints.{bad_script, code_of, complaint_of};

use crate::status::Status;
use script_read::ScriptFault;
use thiserror::Error;

/// The kind of a script's fault, as standard error has it.
#[derive(Clone, Copy, Debug, PartialEq, Eq, Error)]
pub enum ScriptKind {
    #[error("not UTF-8")]
    NotUtf8,
    #[error("no session")]
    NoSession,
    #[error("bad session name")]
    BadName,
    #[error("repeated session")]
    Repeated,
    #[error("unended")]
    Unended,
    #[error("limit")]
    Limit,
}

/// Why a run has not done all, as standard error has it.
#[derive(Debug, Drop, Error)]
pub enum Complaint {
    #[error("usage: ddrun run")]
    Usage,
    #[error("ddrun: bad script at byte {at}: {kind}")]
    BadScript { at: usize, kind: ScriptKind },
    #[error("ddrun: no memory")]
    Memory,
    #[error("ddrun: read fault")]
    ReadFault,
    #[error("ddrun: write fault")]
    WriteFault,
    /// Both count from 0.
    #[error("ddrun: not built: session {session}, statement {number}")]
    NotBuilt { session: u32, number: u32 },
}

impl Complaint {
    /// The exit status.
    pub fn code(&self) -> u8
        ensures { result ≡ code_of self.now }
    {
        match self {
            Complaint::Usage => 2,
            Complaint::BadScript { .. } => 3,
            Complaint::Memory => 4,
            Complaint::ReadFault => 5,
            Complaint::WriteFault => 6,
            Complaint::NotBuilt { .. } => 90,
        }
    }
}

/// What there is to say of a fault of a script.
fn bad_script(fault: ScriptFault) -> Complaint
    ensures { bad_script fault ≡ Some result }
{
    let (at, kind) = match fault {
        ScriptFault::NotUtf8 { at } => (at, ScriptKind::NotUtf8),
        ScriptFault::NoSession { at } => (at, ScriptKind::NoSession),
        ScriptFault::BadName { at } => (at, ScriptKind::BadName),
        ScriptFault::Repeated { at } => (at, ScriptKind::Repeated),
        ScriptFault::Unended { at } => (at, ScriptKind::Unended),
        ScriptFault::Limit { at } => (at, ScriptKind::Limit),
        ScriptFault::Memory => return Complaint::Memory,
    };
    Complaint::BadScript { at, kind }
}

/// What there is to say of a status.
pub fn complaint_of(status: Status) -> Option<Complaint>
    ensures { result ≡ complaint_of status }
{
    match status {
        Status::Ok => None,
        Status::Usage => Some(Complaint::Usage),
        Status::Memory => Some(Complaint::Memory),
        Status::ReadFault => Some(Complaint::ReadFault),
        Status::WriteFault => Some(Complaint::WriteFault),
        Status::NotBuilt { session, number } => Some(Complaint::NotBuilt { session, number }),
        Status::BadScript { fault } => Some(bad_script(fault)),
    }
}
