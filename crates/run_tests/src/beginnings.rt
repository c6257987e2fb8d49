// How often the decision of a statement begins, however much the statement names.
use dd_catalog::Stop;
use dd_engine::{Decision, decided_over};
use plain_catalog::PlainCatalog;
use rules_decide::is_decided;
use rules_outcome::{Decided, Edits};
use script_read::{Script, scripts};
use sql_ast::{SessionState, Statement};
use std::alloc::{AllocError, Global};
use std::test::Fail;

/// The most times that the decision of a statement may begin.
const MOST: u32 = 5;

/// A statement that names many things, behind the statements that make them.
struct Row {
    before: &'static str,
    /// What is written once for each thing before the statement, with its number between each two of the pieces.
    each: &'static [&'static str],
    front: &'static str,
    /// The same in the statement, where a comma stands between two things.
    items: &'static [&'static str],
    back: &'static str,
    /// How many things there are, with the number of the error that the statement is refused with, or 0.
    sizes: [(u32, u16); 3],
}

const DONE: [(u32, u16); 3] = [(8, 0), (64, 0), (512, 0)];

const ROWS: [Row; 13] = [
    Row {
        before: "",
        each: &[],
        front: "DROP TABLE IF EXISTS ",
        items: &["t", ""],
        back: "",
        sizes: DONE,
    },
    Row {
        before: "",
        each: &["CREATE TABLE t", " (i INT PRIMARY KEY);"],
        front: "DROP TABLE ",
        items: &["t", ""],
        back: "",
        sizes: DONE,
    },
    Row {
        before: "",
        each: &["CREATE TABLE t", " (i INT PRIMARY KEY);"],
        front: "DROP TABLE ",
        items: &["t", ""],
        back: ", u",
        sizes: [(8, 1051), (64, 1051), (512, 1051)],
    },
    // A parent with its children.
    Row {
        before: "CREATE TABLE p (i INT PRIMARY KEY);",
        each: &[
            "CREATE TABLE t",
            " (i INT, FOREIGN KEY (i) REFERENCES p (i));",
        ],
        front: "DROP TABLE p, ",
        items: &["t", ""],
        back: "",
        sizes: DONE,
    },
    // A schema whose table has children in another.
    Row {
        before: "CREATE TABLE p (i INT PRIMARY KEY); CREATE DATABASE e;",
        each: &[
            "CREATE TABLE e.t",
            " (i INT, FOREIGN KEY (i) REFERENCES d.p (i));",
        ],
        front: "DROP DATABASE d",
        items: &[],
        back: "",
        sizes: [(8, 3730), (64, 3730), (512, 3730)],
    },
    Row {
        before: "CREATE TABLE p (i INT PRIMARY KEY);",
        each: &[
            "CREATE TABLE t",
            " (i INT, FOREIGN KEY (i) REFERENCES p (i));",
        ],
        front: "CREATE TABLE c (i INT, FOREIGN KEY (i) REFERENCES p (i)",
        items: &[],
        back: ")",
        sizes: DONE,
    },
    Row {
        before: "CREATE TABLE p (i INT PRIMARY KEY);",
        each: &[],
        front: "CREATE TABLE c (i INT, ",
        items: &["FOREIGN KEY (i) REFERENCES p (i)"],
        back: ")",
        sizes: DONE,
    },
    Row {
        before: "CREATE TABLE p (i INT PRIMARY KEY);",
        each: &[],
        front: "CREATE TABLE c (i INT, ",
        items: &["CONSTRAINT k", " FOREIGN KEY (i) REFERENCES p (i)"],
        back: ")",
        sizes: DONE,
    },
    Row {
        before: "",
        each: &[],
        front: "CREATE TABLE t (a INT, ",
        items: &["KEY (a)"],
        back: ")",
        sizes: [(8, 0), (64, 0), (512, 1069)],
    },
    Row {
        before: "",
        each: &[],
        front: "CREATE TABLE t (",
        items: &["c", " INT"],
        back: ")",
        sizes: [(8, 0), (1_017, 0), (1_018, 1117)],
    },
    Row {
        before: "",
        each: &["CREATE TABLE t", " (i INT PRIMARY KEY);"],
        front: "RENAME TABLE ",
        items: &["t", " TO u", ""],
        back: "",
        sizes: DONE,
    },
    Row {
        before: "",
        each: &["CREATE TABLE t", " (i INT PRIMARY KEY);"],
        front: "DROP DATABASE d",
        items: &[],
        back: "",
        sizes: DONE,
    },
    Row {
        before: "",
        each: &["CREATE TABLE t", " (i INT PRIMARY KEY);"],
        front: "TABLE information_schema.columns",
        items: &[],
        back: "",
        sizes: DONE,
    },
];

/// How often decisions began at most, and the number of the error that the last was refused with, or 0.
#[derive(Clone, Copy, Debug, PartialEq, Eq)]
struct Counted {
    begun: u32,
    refused: u16,
}

/// What statements leave.
#[derive(Drop)]
struct Place {
    catalog: PlainCatalog,
    session: SessionState,
}

#[test]
fn no_decision_begins_more_often_where_a_statement_names_more(rt: HostRuntime) -> Result<(), Fail> {
    for row in &ROWS {
        for (size, refused) in row.sizes {
            let script = script_of(rt.alloc(), row, size)?;
            let counted = count_of(rt.alloc(), script.as_str())?;
            assert!(rt; counted.begun <= MOST, "{} {size}: {counted:?}", row.front);
            assert_eq!(rt; counted.refused, refused, "{} {size}", row.front);
        }
    }
    Ok(())
}

fn script_of(alloc: Global, row: &Row, size: u32) -> Result<String, AllocError> {
    let mut script = String::from_str(alloc, "session a\nCREATE DATABASE d; USE d;")?;
    script.push_str(row.before)?;
    push_all(alloc, &mut script, row.each, "", size)?;
    script.push_str(row.front)?;
    push_all(alloc, &mut script, row.items, ", ", size)?;
    script.push_str(row.back)?;
    script.push_str(";")?;
    Ok(script)
}

// Writes the pieces for each thing.
fn push_all(
    alloc: Global,
    script: &mut String,
    pieces: &[&str],
    between: &str,
    size: u32,
) -> Result<(), AllocError> {
    for number in 0..size {
        if number > 0 && !pieces.is_empty() {
            script.push_str(between)?;
        }
        push_one(alloc, script, pieces, number)?;
    }
    Ok(())
}

fn push_one(
    alloc: Global,
    script: &mut String,
    pieces: &[&str],
    number: u32,
) -> Result<(), AllocError> {
    let number = format!(in alloc; "{number}")?;
    for (place, piece) in pieces.iter().enumerate() {
        if place > 0 {
            script.push_str(number.as_str())?;
        }
        script.push_str(piece)?;
    }
    Ok(())
}

fn count_of(alloc: Global, input: &str) -> Result<Counted, Fail> {
    let sessions = scripts(alloc, input.as_bytes())?;
    match sessions.as_slice() {
        [script, ..] => Ok(count_script(alloc, script)?),
        [] => Err("no session".into()),
    }
}

fn count_script(alloc: Global, script: &Script) -> Result<Counted, AllocError> {
    let mut place = empty_place(alloc);
    count_all(alloc, &mut place, script.statements.as_slice())
}

fn empty_place(alloc: Global) -> Place {
    Place {
        catalog: PlainCatalog::new(alloc),
        session: SessionState {
            number: 0,
            current: None,
            tries: 1,
        },
    }
}

fn count_all(
    alloc: Global,
    place: &mut Place,
    statements: &[Statement],
) -> Result<Counted, AllocError> {
    let mut counted = Counted {
        begun: 0,
        refused: 0,
    };
    for statement in statements {
        let one = count_one(alloc, place, statement)?;
        counted = Counted {
            begun: counted.begun.max(one.begun),
            refused: one.refused,
        };
    }
    Ok(counted)
}

// A statement that isn't decided counts as one that begins too often.
fn count_one(
    alloc: Global,
    place: &mut Place,
    statement: &Statement,
) -> Result<Counted, AllocError> {
    if !is_decided(statement) {
        return Ok(Counted {
            begun: u32::MAX,
            refused: 0,
        });
    }
    let Decision { outcome, begun } = decided_over(
        alloc,
        &place.catalog,
        &place.session,
        statement,
    );
    let refused = settle(place, outcome)?;
    Ok(Counted { begun, refused })
}

// Makes the changes that were decided.
fn settle(place: &mut Place, outcome: Result<Decided, Stop>) -> Result<u16, AllocError> {
    match outcome {
        Ok(Decided::Edits(edits)) => change(place, edits),
        Ok(_) => Ok(0),
        Err(Stop::Refused(error)) => Ok(error.number()),
        Err(_) => Err(AllocError),
    }
}

fn change(place: &mut Place, edits: Edits) -> Result<u16, AllocError> {
    let Edits { puts, session } = edits;
    place.session = session;
    place.catalog.apply(puts, 1)?;
    Ok(0)
}
