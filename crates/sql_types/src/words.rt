// Parts of statements as they are written, without what has no effect.
use crate::choices::{FkRule, IndexClass, IntSize};
use crate::literal::Literal;
use dd_names::{List, Name, TryCopy, both};
use std::alloc::AllocError;

/// A table or a view as a statement names it: with its schema, or without for one of the current schema.
#[derive(Drop)]
pub struct ObjRef {
    pub schema: Option<Name>,
    pub name: Name,
}

impl TryCopy for ObjRef {
    fn copy(&self) -> Result<ObjRef, AllocError> {
        match both(self.schema.copy(), self.name.copy()) {
            Ok((schema, name)) => Ok(ObjRef { schema, name }),
            Err(error) => Err(error),
        }
    }
}

/// The type of a column as it is written (MySQL 8.0 Reference Manual, 11.1 to 11.3). Lengths are in characters, and a
/// number that 128 bits don't hold is kept as the greatest that they do.
#[derive(Clone, Copy, Debug, PartialEq, Eq)]
pub enum TypeWords {
    Int { size: IntSize, unsigned: bool },
    Bool,
    Char { length: u128 },
    VarChar { length: u128 },
    Date,
    DateTime,
}

/// A column as it is written (MySQL 8.0 Reference Manual, 13.1.20).
#[derive(Drop)]
pub struct ColumnWords {
    pub name: Name,
    pub kind: TypeWords,
    /// Whether NULL or NOT NULL is written; None where neither is.
    pub nullable: Option<bool>,
    pub default: Option<Literal>,
    /// AUTO_INCREMENT is written.
    pub auto: bool,
    /// UNIQUE is written.
    pub unique: bool,
    /// PRIMARY KEY or KEY is written.
    pub primary: bool,
}

impl TryCopy for ColumnWords {
    fn copy(&self) -> Result<ColumnWords, AllocError> {
        match both(self.name.copy(), self.default.copy()) {
            Ok((name, default)) => Ok(ColumnWords {
                name,
                kind: self.kind,
                nullable: self.nullable,
                default,
                auto: self.auto,
                unique: self.unique,
                primary: self.primary,
            }),
            Err(error) => Err(error),
        }
    }
}

/// An index as it is written (MySQL 8.0 Reference Manual, 13.1.20). A primary key has neither constraint nor name, and a
/// plain key has no constraint; there is a column.
#[derive(Drop)]
pub struct KeyWords {
    pub class: IndexClass,
    pub constraint: Option<Name>,
    pub name: Option<Name>,
    pub columns: List<Name>,
}

impl TryCopy for KeyWords {
    fn copy(&self) -> Result<KeyWords, AllocError> {
        let names = both(self.constraint.copy(), self.name.copy());
        match both(names, self.columns.copy()) {
            Ok(((constraint, name), columns)) => Ok(KeyWords {
                class: self.class,
                constraint,
                name,
                columns,
            }),
            Err(error) => Err(error),
        }
    }
}

/// A foreign key as it is written (MySQL 8.0 Reference Manual, 13.1.20.5). There is a column, and a parent column. A rule
/// that isn't written is NO ACTION.
#[derive(Drop)]
pub struct FkWords {
    pub constraint: Option<Name>,
    pub name: Option<Name>,
    pub columns: List<Name>,
    pub parent: ObjRef,
    pub parent_columns: List<Name>,
    pub on_delete: FkRule,
    pub on_update: FkRule,
}

impl TryCopy for FkWords {
    fn copy(&self) -> Result<FkWords, AllocError> {
        let names = both(self.constraint.copy(), self.name.copy());
        let parent = both(self.parent.copy(), self.parent_columns.copy());
        match both(names, both(self.columns.copy(), parent)) {
            Ok(((constraint, name), (columns, (parent, parent_columns)))) => Ok(FkWords {
                constraint,
                name,
                columns,
                parent,
                parent_columns,
                on_delete: self.on_delete,
                on_update: self.on_update,
            }),
            Err(error) => Err(error),
        }
    }
}
