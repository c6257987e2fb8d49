// Statements that make, change or drop tables.
use crate::action::AlterAction;
use crate::element::Element;
use dd_names::{List, Name};
use sql_types::ObjRef;

/// A statement that makes, changes or drops tables.
#[derive(Drop)]
pub enum TableStatement {
    /// CREATE TABLE.
    Create(CreateTable),
    /// DROP TABLE.
    Drop {
        if_exists: bool,
        tables: List<ObjRef>,
    },
    /// RENAME TABLE.
    Rename {
        pairs: List<RenamePair>,
    },
    /// TRUNCATE TABLE.
    Truncate {
        table: ObjRef,
    },
    /// ALTER TABLE.
    Alter {
        table: ObjRef,
        actions: List<AlterAction>,
    },
    Index(IndexStatement),
}

/// CREATE TABLE (MySQL 8.0 Reference Manual, 13.1.20).
#[derive(Drop)]
pub struct CreateTable {
    pub if_not_exists: bool,
    pub table: ObjRef,
    pub body: TableBody,
}

/// What a new table is made of (MySQL 8.0 Reference Manual, 13.1.20 and 13.1.20.3).
#[derive(Drop)]
pub enum TableBody {
    /// It is made like this table.
    Like(ObjRef),
    /// It has these columns and keys.
    Elements(List<Element>),
}

/// One renaming of RENAME TABLE (MySQL 8.0 Reference Manual, 13.1.36).
#[derive(Drop)]
pub struct RenamePair {
    pub from: ObjRef,
    pub to: ObjRef,
}

/// A statement that makes or drops an index of a table (MySQL 8.0 Reference Manual, 13.1.15 and 13.1.27).
#[derive(Drop)]
pub enum IndexStatement {
    /// CREATE INDEX.
    Create {
        unique: bool,
        name: Name,
        table: ObjRef,
        columns: List<Name>,
    },
    /// DROP INDEX.
    Drop {
        name: Name,
        table: ObjRef,
    },
}
