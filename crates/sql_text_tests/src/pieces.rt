use dd_names::{Name, Text};
use show_text::show_schema;
use sql_pieces::{push_digits, push_name, push_number, push_string, push_word};
use std::test::Fail;

/// Strings, and how they are written (MySQL 8.0 Reference Manual, 9.1.1).
const STRINGS: [(&str, &str); 12] = [
    ("", "''"),
    ("a", "'a'"),
    ("it's", "'it''s'"),
    ("''", "''''''"),
    ("\\", r"'\\'"),
    ("\n\r\0", r"'\n\r\0'"),
    ("\t\"`%_", "'\t\"`%_'"),
    ("\\%", r"'\\%'"),
    ("\u{e9}", "'\u{e9}'"),
    ("\u{20ac}'\u{1f600}", "'\u{20ac}''\u{1f600}'"),
    ("-- #", "'-- #'"),
    ("\\'", r"'\\'''"),
];

#[test]
fn strings_are_written_with_their_escapes(rt: HostRuntime) -> Result<(), Fail> {
    for (string, want) in STRINGS {
        let mut out = Text::of(rt.alloc(), "")?;
        push_string(&mut out, string)?;
        assert_eq!(rt; out.as_str(), want, "at {want:?}");
    }
    Ok(())
}

#[test]
fn names_words_and_numbers_are_written(rt: HostRuntime) -> Result<(), Fail> {
    let alloc = rt.alloc();
    let mut out = Text::of(alloc, "")?;
    push_word(&mut out, "USE ")?;
    push_name(&mut out, &Name::read(alloc, "Select", true)?)?;
    push_digits(&mut out, " 007 ")?;
    push_number(alloc, &mut out, u128::MAX)?;
    assert_eq!(rt;
        out.as_str(),
        "USE `Select` 007 340282366920938463463374607431768211455"
    );
    Ok(())
}

#[test]
fn a_schema_is_shown(rt: HostRuntime) -> Result<(), Fail> {
    let alloc = rt.alloc();
    let name = Name::read(alloc, "d", true)?;
    assert_eq!(rt;
        show_schema(alloc, &name)?.as_str(),
        "CREATE DATABASE `d` /*!40100 DEFAULT CHARACTER SET utf8mb4 COLLATE utf8mb4_0900_ai_ci */ /*!80016 DEFAULT ENCRYPTION='N' */"
    );
    Ok(())
}
