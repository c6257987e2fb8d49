// What ALTER TABLE does (MySQL 8.0 Reference Manual, 13.1.9).
use dd_names::{List, Name};
use sql_types::{ColumnWords, FkWords, KeyWords, Literal, ObjRef};

/// Where a column comes to stand.
#[derive(Drop)]
pub enum Place {
    First,
    After(Name),
}

/// One action of ALTER TABLE. Of several columns that are added at once there is one or more.
#[derive(Drop)]
pub enum AlterAction {
    AddColumn {
        column: ColumnWords,
        place: Option<Place>,
    },
    AddColumns {
        columns: List<ColumnWords>,
    },
    AddKey(KeyWords),
    AddForeignKey(FkWords),
    DropColumn {
        name: Name,
    },
    ModifyColumn {
        column: ColumnWords,
        place: Option<Place>,
    },
    ChangeColumn {
        name: Name,
        column: ColumnWords,
        place: Option<Place>,
    },
    RenameColumn {
        from: Name,
        to: Name,
    },
    SetDefault {
        name: Name,
        value: Literal,
    },
    DropDefault {
        name: Name,
    },
    DropIndex {
        name: Name,
    },
    DropPrimaryKey,
    DropForeignKey {
        name: Name,
    },
    RenameIndex {
        from: Name,
        to: Name,
    },
    RenameTable {
        to: ObjRef,
    },
    Force,
    /// ENGINE, which rebuilds the table.
    Engine,
}
