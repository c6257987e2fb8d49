//! Tables and views from parts.
use dd_definitions::{ColumnDef, TableDef, TableParts, ViewColumn, ViewDef, ViewParts, ViewSource};
use dd_names::{List, Name, ObjName, ObjectKey, both};
use rules_outcome::{After, Edit};
use sql_types::ColumnType;
use std::alloc::{AllocError, Global};

/// Whether a table is made of so many columns of one name.
pub fn makes_table(alloc: Global, count: usize) -> Result<bool, AllocError> {
    match both(object(alloc, "t"), columns(alloc, count)) {
        Ok((name, columns)) => Ok(is_table(TableParts {
            name,
            columns,
            indexes: List::new(alloc),
            foreign_keys: List::new(alloc),
        })),
        Err(error) => Err(error),
    }
}

fn is_table(parts: TableParts) -> bool {
    table_def(parts).is_ok()
}

fn table_def(parts: TableParts) -> Result<TableDef, AllocError> {
    TableDef::of(parts).map_err(|_| AllocError)
}

fn columns(alloc: Global, count: usize) -> Result<List<ColumnDef>, AllocError> {
    let mut columns = List::new(alloc);
    'columns: for _ in 0..count {
        columns.push(column(alloc)?)?;
    }
    Ok(columns)
}

fn column(alloc: Global) -> Result<ColumnDef, AllocError> {
    Ok(ColumnDef {
        name: name(alloc, "i")?,
        kind: ColumnType::Date,
        nullable: true,
        default: None,
        auto: false,
    })
}

/// Whether a view is made that shows a column of so many sources of one name.
pub fn makes_view(alloc: Global, count: usize) -> Result<bool, AllocError> {
    match view(alloc, count) {
        Ok(parts) => Ok(view_def(parts).is_ok()),
        Err(error) => Err(error),
    }
}

/// The edit that makes the view.
pub fn view_edits(alloc: Global) -> Result<List<Edit>, AllocError> {
    let mut edits = List::new(alloc);
    edits.push(view_edit(alloc)?)?;
    Ok(edits)
}

fn view_edit(alloc: Global) -> Result<Edit, AllocError> {
    match both(object(alloc, "v"), one_view(alloc)) {
        Ok((name, def)) => Ok(Edit {
            key: ObjectKey::Object(name),
            before: None,
            after: After::NewView { schema: 1, def },
        }),
        Err(error) => Err(error),
    }
}

fn one_view(alloc: Global) -> Result<ViewDef, AllocError> {
    match view(alloc, 1) {
        Ok(parts) => view_def(parts),
        Err(error) => Err(error),
    }
}

fn view_def(parts: ViewParts) -> Result<ViewDef, AllocError> {
    ViewDef::of(parts).map_err(|_| AllocError)
}

fn view(alloc: Global, count: usize) -> Result<ViewParts, AllocError> {
    match both(
        object(alloc, "v"),
        both(sources(alloc, count), outputs(alloc)),
    ) {
        Ok((name, (sources, outputs))) => Ok(ViewParts {
            name,
            sources,
            outputs,
        }),
        Err(error) => Err(error),
    }
}

fn sources(alloc: Global, count: usize) -> Result<List<ViewSource>, AllocError> {
    let mut sources = List::new(alloc);
    'sources: for _ in 0..count {
        sources.push(source(alloc)?)?;
    }
    Ok(sources)
}

fn source(alloc: Global) -> Result<ViewSource, AllocError> {
    match both(object(alloc, "t"), name(alloc, "t")) {
        Ok((object, alias)) => Ok(ViewSource { object, alias }),
        Err(error) => Err(error),
    }
}

fn outputs(alloc: Global) -> Result<List<ViewColumn>, AllocError> {
    let mut outputs = List::new(alloc);
    outputs.push(output(alloc)?)?;
    Ok(outputs)
}

fn output(alloc: Global) -> Result<ViewColumn, AllocError> {
    match both(name(alloc, "i"), name(alloc, "i")) {
        Ok((column, output)) => Ok(ViewColumn {
            source: 0,
            column,
            output,
        }),
        Err(error) => Err(error),
    }
}

// An object of the schema `d`.
fn object(alloc: Global, own: &str) -> Result<ObjName, AllocError> {
    match both(name(alloc, "d"), name(alloc, own)) {
        Ok((schema, name)) => Ok(ObjName { schema, name }),
        Err(error) => Err(error),
    }
}

fn name(alloc: Global, text: &str) -> Result<Name, AllocError> {
    Name::read(alloc, text, true).map_err(|_| AllocError)
}
