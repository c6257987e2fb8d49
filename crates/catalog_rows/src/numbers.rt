// The numbers of choices in rows.
ghost use Rattle.std.specs.Prelude.{◌≡◌, ◌<◌, ◌^◌};
ghost use Rattle.catalog_rows.specs.Parts.{flag, size_number, type_number, type_length, class_number, rule_number};

use sql_types::{ColumnType, FkRule, IndexClass, IntSize};

/// 1 where it is set, else 0.
pub fn flag(set: bool) -> u8
    ensures { result ≡ flag set }
{
    if set { 1 } else { 0 }
}

/// The number of a type: 1 to 5 the integers by their size, 6 to 10 the unsigned ones, then BOOL, CHAR, VARCHAR, DATE, DATETIME.
pub fn type_number(kind: ColumnType) -> u8
    ensures { result ≡ type_number kind }
{
    match kind {
        ColumnType::Int { size, unsigned } => {
            if unsigned {
                size_number(size) + 5
            } else {
                size_number(size)
            }
        }
        ColumnType::Bool => 11,
        ColumnType::Char { .. } => 12,
        ColumnType::VarChar { .. } => 13,
        ColumnType::Date => 14,
        ColumnType::DateTime => 15,
    }
}

fn size_number(size: IntSize) -> u8
    ensures { result ≡ size_number size }
{
    match size {
        IntSize::Tiny => 1,
        IntSize::Small => 2,
        IntSize::Medium => 3,
        IntSize::Normal => 4,
        IntSize::Big => 5,
    }
}

/// The length of a string type in characters, and 0 of another.
pub fn type_length(kind: ColumnType) -> u16
    ensures value { result ≡ type_length kind }
    ensures short { type_length kind < 2 ^ 16 }
{
    match kind {
        ColumnType::Char { length } | ColumnType::VarChar { length } => length,
        ColumnType::Int { .. } | ColumnType::Bool | ColumnType::Date | ColumnType::DateTime => 0,
    }
}

/// The number of a class of indexes.
pub fn class_number(class: IndexClass) -> u8
    ensures { result ≡ class_number class }
{
    match class {
        IndexClass::Primary => 1,
        IndexClass::Unique => 2,
        IndexClass::Plain => 3,
    }
}

/// The number of a rule of a foreign key.
pub fn rule_number(rule: FkRule) -> u8
    ensures { result ≡ rule_number rule }
{
    match rule {
        FkRule::NoAction => 0,
        FkRule::Restrict => 1,
        FkRule::Cascade => 2,
        FkRule::SetNull => 3,
    }
}
