// Which change gives a table a new tablespace (MySQL 8.0 Reference Manual, 15.12.1).
ghost use Rattle.std.specs.Prelude.{◌≡◌, map, IfOk};
ghost use Rattle.std.specs.List.{find};
ghost use Rattle.std.specs.Option.{option_copied};
ghost use Rattle.dd_definitions.specs.Defaults.{bits};
ghost use Rattle.dd_definitions.specs.Indexes.{is_primary};
ghost use Rattle.dd_definitions.specs.declared.parts.TableParts.{TableParts as Parts};
ghost use Rattle.rules_alter.specs.Rebuilds.{are_of_one_type, are_same_names, asks_rebuild, is_forced, is_same_type, kept_from, kept_to, name_behind, primary_behind, primary_columns, type_of};

use dd_definitions::{IndexDef, TableParts};
use dd_names::{List, Name, TryCopy};
use rules_create::is_primary;
use rules_elements::column_named;
use sql_ast::AlterAction;
use sql_types::{ColumnType, IntSize};
use std::alloc::{AllocError, Global};

/// What of a table before an action tells whether the action asks for a new tablespace.
#[derive(Drop)]
pub struct Shape {
    /// The type of a column that stays.
    pub kind: Option<ColumnType>,
    /// The columns of the primary key, by their names behind the action.
    pub primary: List<Name>,
}

pub(crate) fn shape_before(
    alloc: Global,
    action: &AlterAction,
    parts: &TableParts,
) -> Result<Shape, AllocError>
    ensures kind { IfOk result (λ shape. shape.kind ≡ type_of (kept_from action.now) parts.now) }
    ensures primary { IfOk result (λ shape. shape.primary ≡ primary_behind action.now parts.now) }
{
    let kind = type_of(kept_from(action), parts);
    match primary_behind(alloc, action, parts) {
        Ok(primary) => Ok(Shape { kind, primary }),
        Err(error) => Err(error),
    }
}

/// Whether an action asks for a new tablespace, of a table with this shape before it.
#[tactic(auto, unfolding(crate::specs::Rebuilds::asks_rebuild))]
pub(crate) fn asks_rebuild(action: &AlterAction, before: &Shape, parts: &TableParts) -> bool
    ensures { (old : Parts) → before.now.kind ≡ type_of (kept_from action.now) old → before.now.primary ≡ primary_behind action.now old → result ≡ asks_rebuild action.now old parts.now }
{
    is_forced(action)
        || !are_of_one_type(before.kind, type_of(kept_to(action), parts))
        || !are_same_names(before.primary.as_slice(), primary_columns(parts))
}

fn is_forced(action: &AlterAction) -> bool
    ensures { result ≡ is_forced action.now }
{
    matches!(action, AlterAction::Force | AlterAction::Engine)
}

fn kept_from(action: &AlterAction) -> Option<&Name>
    ensures { option_copied result ≡ kept_from action.now }
{
    match action {
        AlterAction::ModifyColumn { column, .. } => Some(&column.name),
        AlterAction::ChangeColumn { name, .. } => Some(name),
        AlterAction::RenameColumn { from, .. } => Some(from),
        _ => None,
    }
}

fn kept_to(action: &AlterAction) -> Option<&Name>
    ensures { option_copied result ≡ kept_to action.now }
{
    match action {
        AlterAction::ModifyColumn { column, .. } => Some(&column.name),
        AlterAction::ChangeColumn { column, .. } => Some(&column.name),
        AlterAction::RenameColumn { to, .. } => Some(to),
        _ => None,
    }
}

fn type_of(name: Option<&Name>, parts: &TableParts) -> Option<ColumnType>
    ensures { result ≡ type_of (option_copied name.entry) parts.now }
{
    match column_named(parts.columns.as_slice(), name?) {
        Some(column) => Some(column.kind),
        None => None,
    }
}

fn are_of_one_type(before: Option<ColumnType>, behind: Option<ColumnType>) -> bool
    ensures { result ≡ are_of_one_type before behind }
{
    match (before, behind) {
        (Some(before), Some(behind)) => is_same_type(before, behind),
        _ => true,
    }
}

fn is_same_type(a: ColumnType, b: ColumnType) -> bool
    ensures { result ≡ is_same_type a b }
{
    match (a, b) {
        (
            ColumnType::Int { size, unsigned },
            ColumnType::Int {
                size: other,
                unsigned: sign,
            },
        ) => bits(size) == bits(other) && unsigned == sign,
        (ColumnType::Bool, ColumnType::Bool) => true,
        (ColumnType::Char { length: most }, ColumnType::Char { length: other }) => most == other,
        (ColumnType::VarChar { length: most }, ColumnType::VarChar { length: other }) => {
            most == other
        }
        (ColumnType::Date, ColumnType::Date) => true,
        (ColumnType::DateTime, ColumnType::DateTime) => true,
        _ => false,
    }
}

fn bits(size: IntSize) -> u8
    ensures { result ≡ bits size }
{
    match size {
        IntSize::Tiny => 8,
        IntSize::Small => 16,
        IntSize::Medium => 24,
        IntSize::Normal => 32,
        IntSize::Big => 64,
    }
}

fn primary_columns(parts: &TableParts) -> &[Name]
    ensures { result.now ≡ primary_columns parts.now }
{
    match primary_of(parts.indexes.as_slice()) {
        Some(index) => index.columns.as_slice(),
        None => &[],
    }
}

fn primary_of(indexes: &[IndexDef]) -> Option<&IndexDef>
    ensures { option_copied result ≡ find is_primary indexes.now }
{
    indexes.iter().find(|index| is_primary(index))
}

fn primary_behind(
    alloc: Global,
    action: &AlterAction,
    parts: &TableParts,
) -> Result<List<Name>, AllocError>
    ensures { IfOk result (λ names. names ≡ primary_behind action.now parts.now) }
{
    names_behind(
        alloc,
        kept_from(action),
        kept_to(action),
        primary_columns(parts),
    )
}

fn names_behind(
    alloc: Global,
    from: Option<&Name>,
    to: Option<&Name>,
    names: &[Name],
) -> Result<List<Name>, AllocError>
    ensures { IfOk result (λ found. found ≡ map (name_behind (option_copied from.entry) (option_copied to.entry)) names.now) }
{
    let mut found = List::new(alloc);
    'names: for name in names {
        found.push(name_behind(from, to, name)?)?;
    }
    Ok(found)
}

fn name_behind(from: Option<&Name>, to: Option<&Name>, name: &Name) -> Result<Name, AllocError>
    ensures { IfOk result (λ found. found ≡ name_behind (option_copied from.entry) (option_copied to.entry) name.now) }
{
    match (from, to) {
        (Some(from), Some(to)) if name.same(from) => to.copy(),
        _ => name.copy(),
    }
}

fn are_same_names(names: &[Name], others: &[Name]) -> bool
    ensures { result ≡ are_same_names names.now others.now }
{
    match names {
        [] => others.is_empty(),
        [name, names @ ..] => match others {
            [] => false,
            [other, others @ ..] => *name == *other && are_same_names(names, others),
        },
    }
}
