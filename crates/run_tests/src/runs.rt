use dd_run::{Status, complaint_of, ddrun};
use edge_io::{MemorySink, MemorySource};
use script_read::ScriptFault;
use std::alloc::{AllocError, Global};
use std::test::Fail;

/// Inputs that are answered, with the output and how many statements they have.
const ANSWERED: [(&str, &str, usize); 17] = [
    SHOWN,
    (
        "session a\nCREATE DATABASE d; USE d; CREATE TABLE t (i INT PRIMARY KEY, j CHAR(3) DEFAULT 'x'); SHOW COLUMNS FROM t;",
        "-- session a\nOK\nOK\nOK\nField\tType\tNull\tKey\tDefault\tExtra\ni\tint\tNO\tPRI\tNULL\t\nj\tchar(3)\tYES\t\tx\t\n",
        4,
    ),
    (
        "session a\nCREATE DATABASE d; CREATE TABLE d.t (i INT); TABLE information_schema.tables; TABLE information_schema.nope;",
        "-- session a\nOK\nOK\nTABLE_SCHEMA\tTABLE_NAME\tTABLE_TYPE\tENGINE\nd\tt\tBASE TABLE\tInnoDB\nERROR 1109 (42S02): Unknown table 'nope' in information_schema\n",
        4,
    ),
    (
        "session a\nCREATE DATABASE mysql;",
        "-- session a\nERROR 1007 (HY000): Can't create database 'mysql'; database exists\n",
        1,
    ),
    ("", "", 0),
    (" \t\r\n", "", 0),
    (";", "", 0),
    ("session a", "-- session a\n", 0),
    ("session a\n;; ;\n", "-- session a\n", 0),
    (
        " \n\tSESSION B_1 \r\ncreate database b;; create\ndatabase a ;CREATE DATABASE b;show databases ; \r\n",
        "-- session B_1\nOK\nOK\nERROR 1007 (HY000): Can't create database 'b'; database exists\nDatabase\na\nb\n",
        4,
    ),
    (
        "session a\nCREATE DATABASE B; CREATE DATABASE b; SHOW DATABASES;",
        "-- session a\nOK\nOK\nDatabase\nB\nb\n",
        3,
    ),
    (
        "session a\nCREATE SCHEMA IF NOT EXISTS `use` CHARSET utf8mb4; /* ; */ create database `use`; # ;\nCREATE DATABASE IF NOT EXISTS `use`;",
        "-- session a\nOK\nERROR 1007 (HY000): Can't create database 'use'; database exists\nOK\n",
        3,
    ),
    (
        "session a\nCREATE DATABASE e e;",
        "-- session a\nERROR 1064 (42000): You have an error in your SQL syntax at byte 18\n",
        1,
    ),
    (
        "session a\nCREATE DATABASE select; USE ';'; SHOW SCHEMAS;",
        "-- session a\nERROR 1064 (42000): You have an error in your SQL syntax at byte 16\nERROR 1064 (42000): You have an error in your SQL syntax at byte 4\nDatabase\n",
        3,
    ),
    (
        "session a\nCREATE DATABASE 12;",
        "-- session a\nERROR 1064 (42000): You have an error in your SQL syntax at byte 16\n",
        1,
    ),
    (
        "session a\n/*!40000 */;",
        "-- session a\nERROR 1064 (42000): You have an error in your SQL syntax at byte 11\n",
        1,
    ),
    (
        "session a\nCREATE DATABASE aaaaaaaaaaaaaaaaaaaaaaaaaaaaaaaaaaaaaaaaaaaaaaaaaaaaaaaaaaaaaaaaa;",
        "-- session a\nERROR 1059 (42000): Identifier name 'aaaaaaaaaaaaaaaaaaaaaaaaaaaaaaaaaaaaaaaaaaaaaaaaaaaaaaaaaaaaaaaaa' is too long\n",
        1,
    ),
];

/// A schema is made and shown.
const SHOWN: (&str, &str, usize) = (
    "session a\nCREATE DATABASE d; SHOW DATABASES;",
    "-- session a\nOK\nDatabase\nd\n",
    2,
);

/// Inputs of which nothing is answered.
const REFUSED: [(&str, Status); 11] = [
    (
        "session a\nDROP VIEW v;",
        Status::NotBuilt {
            session: 0,
            number: 0,
        },
    ),
    (
        "session a\nSHOW DATABASES; x; ALTER TABLE t FORCE; session b\nUSE d;",
        Status::NotBuilt {
            session: 0,
            number: 2,
        },
    ),
    (
        "session a\nSHOW DATABASES; session b\nSHOW DATABASES;",
        Status::NotBuilt {
            session: 1,
            number: 0,
        },
    ),
    (
        "session a\nsession b",
        Status::NotBuilt {
            session: 1,
            number: 0,
        },
    ),
    (
        "SHOW DATABASES;",
        Status::BadScript {
            fault: ScriptFault::NoSession { at: 0 },
        },
    ),
    (
        "session a\nSHOW DATABASES",
        Status::BadScript {
            fault: ScriptFault::Unended { at: 10 },
        },
    ),
    (
        "session a\nUSE d; /*",
        Status::BadScript {
            fault: ScriptFault::Unended { at: 17 },
        },
    ),
    (
        "session a b\nSHOW DATABASES;",
        Status::BadScript {
            fault: ScriptFault::BadName { at: 0 },
        },
    ),
    (
        "session\na SHOW DATABASES;",
        Status::BadScript {
            fault: ScriptFault::BadName { at: 0 },
        },
    ),
    (
        "session \u{e9}\n",
        Status::BadScript {
            fault: ScriptFault::BadName { at: 0 },
        },
    ),
    (
        "session a\nsession b\nsession a",
        Status::BadScript {
            fault: ScriptFault::Repeated { at: 20 },
        },
    ),
];

/// Words that ask for nothing that the program does.
const OTHER_WORDS: [&[&str]; 4] = [&[], &["run", "x"], &["RUN"], &["grow", "1"]];

/// How a run has ended, what it has printed, and how many entries its history has.
#[derive(Drop)]
pub struct Outcome {
    status: Status,
    output: Vec<u8>,
    entries: usize,
}

/// Runs on these words and this input; the calls of the source and of the sink with these numbers fail.
pub fn run_on(
    alloc: Global,
    words: &[&str],
    input: &str,
    reads: &[u64],
    writes: &[u64],
) -> Result<Outcome, AllocError> {
    let input = Vec::from_slice(alloc, input.as_bytes())?;
    let mut source = MemorySource::new(input, Vec::from_slice(alloc, reads)?);
    let mut sink = MemorySink::new(alloc, Vec::from_slice(alloc, writes)?);
    let ended = ddrun(alloc, words, &mut source, &mut sink);
    Ok(Outcome {
        status: ended.status,
        output: Vec::from_slice(alloc, sink.written())?,
        entries: ended.history.len(),
    })
}

/// Whether a run ended so.
pub fn has_ended(outcome: &Outcome, status: Status, output: &str, entries: usize) -> bool {
    outcome.status == status
        && outcome.output.as_slice() == output.as_bytes()
        && outcome.entries == entries
}

#[test]
fn good_scripts_are_answered(rt: HostRuntime) -> Result<(), Fail> {
    for (input, output, entries) in &ANSWERED {
        let outcome = run_on(rt.alloc(), &["run"], input, &[], &[])?;
        assert!(rt;
            has_ended(&outcome, Status::Ok, output, *entries),
            "{input}"
        );
    }
    Ok(())
}

#[test]
fn other_scripts_are_refused(rt: HostRuntime) -> Result<(), Fail> {
    for (input, status) in &REFUSED {
        let outcome = run_on(rt.alloc(), &["run"], input, &[], &[])?;
        assert!(rt; has_ended(&outcome, *status, "", 0), "{input}");
    }
    Ok(())
}

#[test]
fn other_words_are_refused(rt: HostRuntime) -> Result<(), Fail> {
    for words in OTHER_WORDS {
        let outcome = run_on(rt.alloc(), words, "", &[], &[])?;
        assert!(rt; has_ended(&outcome, Status::Usage, "", 0), "{words:?}");
    }
    Ok(())
}

#[test]
fn a_failing_read_or_write_ends_the_run(rt: HostRuntime) -> Result<(), Fail> {
    let alloc = rt.alloc();
    let cases: [(&[u64], &[u64], Status, &str, usize); 5] = [
        (&[1], &[], Status::ReadFault, "", 0),
        (&[2], &[], Status::ReadFault, "", 0),
        (&[], &[1], Status::WriteFault, "", 2),
        (&[], &[2], Status::WriteFault, "-- session a\n", 2),
        (&[], &[3], Status::WriteFault, "-- session a\nOK\n", 2),
    ];
    for (reads, writes, status, output, entries) in cases {
        let outcome = run_on(alloc, &["run"], SHOWN.0, reads, writes)?;
        assert!(rt;
            has_ended(&outcome, status, output, entries),
            "at {reads:?} {writes:?}"
        );
    }
    Ok(())
}

#[test]
fn each_status_has_its_number_and_line(rt: HostRuntime) -> Result<(), Fail> {
    let alloc = rt.alloc();
    assert!(rt; complaint_of(Status::Ok).is_none());
    for (status, code, line) in [
        (Status::Usage, 2, "usage: ddrun run"),
        (Status::Memory, 4, "ddrun: no memory"),
        (Status::ReadFault, 5, "ddrun: read fault"),
        (Status::WriteFault, 6, "ddrun: write fault"),
        (
            Status::NotBuilt {
                session: 1,
                number: 0,
            },
            90,
            "ddrun: not built: session 1, statement 0",
        ),
    ] {
        let complaint = complaint_of(status).ok_or("nothing to say")?;
        assert_eq!(rt; complaint.code(), code);
        assert_eq!(rt; complaint.to_string(alloc)?.as_str(), line);
    }
    Ok(())
}

#[test]
fn each_fault_of_a_script_has_its_line(rt: HostRuntime) -> Result<(), Fail> {
    let alloc = rt.alloc();
    for (fault, line) in [
        (
            ScriptFault::NotUtf8 { at: 0 },
            "ddrun: bad script at byte 0: not UTF-8",
        ),
        (
            ScriptFault::NoSession { at: 1 },
            "ddrun: bad script at byte 1: no session",
        ),
        (
            ScriptFault::BadName { at: 2 },
            "ddrun: bad script at byte 2: bad session name",
        ),
        (
            ScriptFault::Repeated { at: 3 },
            "ddrun: bad script at byte 3: repeated session",
        ),
        (
            ScriptFault::Unended { at: 4 },
            "ddrun: bad script at byte 4: unended",
        ),
        (
            ScriptFault::Limit { at: 5 },
            "ddrun: bad script at byte 5: limit",
        ),
        (ScriptFault::Memory, "ddrun: no memory"),
    ] {
        let complaint = complaint_of(Status::BadScript { fault }).ok_or("nothing to say")?;
        assert_eq!(rt; complaint.to_string(alloc)?.as_str(), line);
    }
    Ok(())
}
