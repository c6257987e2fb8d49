ghost use Rattle.std.specs.Prelude.{◌≡◌, ◌++◌, IfOk, OnOk, decimal, codes};
ghost use Rattle.show_text.specs.Columns.{size_text, sign_text, with_length, type_text};
ghost use Rattle.show_text.specs.Keys.{rule_name};
ghost use Rattle.sdi_text.specs.Words.{class_word};

use dd_names::Text;
use sql_types::{ColumnType, FkRule, IndexClass, IntSize};
use std::alloc::{AllocError, Global};

/// A type as SHOW CREATE TABLE writes it.
pub(crate) fn type_text(alloc: Global, kind: ColumnType) -> Result<Text, AllocError>
    ensures { IfOk result (λ text. text ≡ type_text kind) }
{
    match kind {
        ColumnType::Int { size, unsigned } => signed(alloc, size, unsigned),
        ColumnType::Bool => Text::of(alloc, "tinyint(1)"),
        ColumnType::Char { length } => with_length(alloc, "char", length),
        ColumnType::VarChar { length } => with_length(alloc, "varchar", length),
        ColumnType::Date => Text::of(alloc, "date"),
        ColumnType::DateTime => Text::of(alloc, "datetime"),
    }
}

fn signed(alloc: Global, size: IntSize, unsigned: bool) -> Result<Text, AllocError>
    ensures { IfOk result (λ text. text ≡ size_text size ++ sign_text unsigned) }
{
    let mut text = Text::of(alloc, size_text(size))?;
    text.push_str(sign_text(unsigned))?;
    Ok(text)
}

fn size_text(size: IntSize) -> &'static str
    ensures { result.now ≡ size_text size }
{
    match size {
        IntSize::Tiny => "tinyint",
        IntSize::Small => "smallint",
        IntSize::Medium => "mediumint",
        IntSize::Normal => "int",
        IntSize::Big => "bigint",
    }
}

fn sign_text(unsigned: bool) -> &'static str
    ensures { result.now ≡ sign_text unsigned }
{
    if unsigned { " unsigned" } else { "" }
}

fn with_length(alloc: Global, word: &str, length: u16) -> Result<Text, AllocError>
    ensures { IfOk result (λ text. text ≡ with_length word.now length) }
{
    let mut text = Text::of(alloc, word)?;
    push_length(alloc, &mut text, length)?;
    Ok(text)
}

fn push_length(alloc: Global, text: &mut Text, length: u16) -> Result<(), AllocError>
    ensures { OnOk result (text.new ≡ text.old ++ (codes "(" ++ decimal length ++ codes ")")) }
{
    let digits = format!(in alloc; "{length}")?;
    text.push_str("(")?;
    text.push_str(digits.as_str())?;
    text.push_str(")")
}

pub(crate) fn class_word(class: IndexClass) -> &'static str
    ensures { result.now ≡ class_word class }
{
    match class {
        IndexClass::Primary => "primary",
        IndexClass::Unique => "unique",
        IndexClass::Plain => "plain",
    }
}

pub(crate) fn rule_name(rule: FkRule) -> &'static str
    ensures { result.now ≡ rule_name rule }
{
    match rule {
        FkRule::NoAction => "NO ACTION",
        FkRule::Restrict => "RESTRICT",
        FkRule::Cascade => "CASCADE",
        FkRule::SetNull => "SET NULL",
    }
}
