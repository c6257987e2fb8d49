// The keys that a statement's text names, and those that what stands there brings with it. No answer rests on which these
// are: a key that is known and not needed changes nothing, and one that is needed and was not foreseen is told then.
use dd_catalog::Object;
use dd_definitions::ViewSource;
use dd_names::{List, Name, ObjName, ObjectKey, Text, TryCopy, both};
use rules_create::constraint_front;
use sql_ast::{
    CreateTable, Element, RenamePair, SchemaStatement, SessionState, ShowStatement, Statement,
    TableBody, TableStatement,
};
use sql_types::{FkWords, ObjRef};
use std::alloc::{AllocError, Global};

/// What a statement looks at behind a table that it names.
#[derive(Clone, Copy)]
pub(crate) enum Bringing {
    Nothing,
    /// The tables that refer to it.
    Children,
    /// These, and what stands at each.
    WholeChildren,
    /// The sources of a view, and theirs.
    Sources,
}

pub(crate) fn bringing_of(statement: &Statement) -> Bringing {
    match statement {
        Statement::Schema(SchemaStatement::Drop { .. }) => Bringing::Children,
        Statement::Table(TableStatement::Drop { .. }) => Bringing::Children,
        Statement::Table(TableStatement::Rename { .. } | TableStatement::Truncate { .. }) => {
            Bringing::WholeChildren
        }
        Statement::Show(ShowStatement::Columns { .. }) => Bringing::Sources,
        _ => Bringing::Nothing,
    }
}

/// The keys that the text names.
pub(crate) fn first_keys(
    alloc: Global,
    session: &SessionState,
    statement: &Statement,
) -> Result<List<ObjectKey>, AllocError> {
    let mut keys = List::new(alloc);
    match add_first_keys(alloc, session, statement, &mut keys) {
        Ok(()) => Ok(keys),
        Err(error) => Err(error),
    }
}

fn add_first_keys(
    alloc: Global,
    session: &SessionState,
    statement: &Statement,
    keys: &mut List<ObjectKey>,
) -> Result<(), AllocError> {
    match statement {
        Statement::Schema(SchemaStatement::Drop { name, .. }) => add_schema(name, keys),
        Statement::Table(statement) => add_of_table(alloc, session, statement, keys),
        Statement::Show(statement) => add_shown(session, statement, keys),
        _ => Ok(()),
    }
}

// All schemas, where a table of INFORMATION_SCHEMA may list their objects.
fn add_shown(
    session: &SessionState,
    statement: &ShowStatement,
    keys: &mut List<ObjectKey>,
) -> Result<(), AllocError> {
    match statement {
        ShowStatement::Columns { object } => add_named(&session.current, object, keys),
        ShowStatement::Information { .. } => Ok(keys.push(ObjectKey::Schemas)?),
        _ => Ok(()),
    }
}

// The schema and the list of its objects.
fn add_schema(schema: &Name, keys: &mut List<ObjectKey>) -> Result<(), AllocError> {
    add_key(schema.copy().map(ObjectKey::Schema), keys)?;
    add_key(schema.copy().map(ObjectKey::Objects), keys)
}

fn add_of_table(
    alloc: Global,
    session: &SessionState,
    statement: &TableStatement,
    keys: &mut List<ObjectKey>,
) -> Result<(), AllocError> {
    match statement {
        TableStatement::Create(words) => add_created(alloc, session, words, keys),
        TableStatement::Drop { tables, .. } => add_names(session, tables.as_slice(), keys),
        TableStatement::Rename { pairs } => add_pairs(session, pairs.as_slice(), keys),
        TableStatement::Truncate { table } => add_named(&session.current, table, keys),
        _ => Ok(()),
    }
}

fn add_names(
    session: &SessionState,
    tables: &[ObjRef],
    keys: &mut List<ObjectKey>,
) -> Result<(), AllocError> {
    'tables: for table in tables {
        add_named(&session.current, table, keys)?;
    }
    Ok(())
}

fn add_pairs(
    session: &SessionState,
    pairs: &[RenamePair],
    keys: &mut List<ObjectKey>,
) -> Result<(), AllocError> {
    'pairs: for pair in pairs {
        add_named(&session.current, &pair.from, keys)?;
        add_named(&session.current, &pair.to, keys)?;
    }
    Ok(())
}

// The table, and its source or what its foreign keys name.
fn add_created(
    alloc: Global,
    session: &SessionState,
    words: &CreateTable,
    keys: &mut List<ObjectKey>,
) -> Result<(), AllocError> {
    add_named(&session.current, &words.table, keys)?;
    match &words.body {
        TableBody::Like(source) => add_named(&session.current, source, keys),
        TableBody::Elements(elements) => {
            add_elements(alloc, session, &words.table, elements.as_slice(), keys)
        }
    }
}

// The schema that is written, or the current one.
fn schema_of<'a>(current: &'a Option<Name>, named: &'a ObjRef) -> Option<&'a Name> {
    match &named.schema {
        Some(schema) => Some(schema),
        None => current.as_ref(),
    }
}

// The schema and the object of the name.
fn add_named(
    current: &Option<Name>,
    named: &ObjRef,
    keys: &mut List<ObjectKey>,
) -> Result<(), AllocError> {
    match schema_of(current, named) {
        Some(schema) => {
            add_key(schema.copy().map(ObjectKey::Schema), keys)?;
            add_object(schema, &named.name, keys)
        }
        None => Ok(()),
    }
}

fn add_elements(
    alloc: Global,
    session: &SessionState,
    table: &ObjRef,
    elements: &[Element],
    keys: &mut List<ObjectKey>,
) -> Result<(), AllocError> {
    match schema_of(&session.current, table) {
        Some(schema) => add_elements_in(alloc, schema, &table.name, elements, keys),
        None => Ok(()),
    }
}

fn add_elements_in(
    alloc: Global,
    schema: &Name,
    table: &Name,
    elements: &[Element],
    keys: &mut List<ObjectKey>,
) -> Result<(), AllocError> {
    let front = constraint_front(alloc, table)?;
    let mut number = 0u64;
    'elements: for element in elements {
        if let Element::ForeignKey(words) = element {
            number = number.saturating_add(1);
            add_foreign_key(alloc, schema, front.as_str(), number, words, keys)?;
        }
    }
    Ok(())
}

// The parent of a foreign key, and the name that it is given, or the one that it gets where each before it got one.
fn add_foreign_key(
    alloc: Global,
    schema: &Name,
    front: &str,
    number: u64,
    words: &FkWords,
    keys: &mut List<ObjectKey>,
) -> Result<(), AllocError> {
    add_object(
        words.parent.schema.as_ref().unwrap_or(schema),
        &words.parent.name,
        keys,
    )?;
    match &words.constraint {
        Some(name) => add_constraint(schema, name, keys),
        None => add_made(alloc, schema, front, number, keys),
    }
}

// The name that a foreign key gets which isn't given one.
fn add_made(
    alloc: Global,
    schema: &Name,
    front: &str,
    number: u64,
    keys: &mut List<ObjectKey>,
) -> Result<(), AllocError> {
    match made_name(alloc, front, number)? {
        Some(name) => add_constraint(schema, &name, keys),
        None => Ok(()),
    }
}

fn made_name(alloc: Global, front: &str, number: u64) -> Result<Option<Name>, AllocError> {
    let made = Text::from_string(format!(in alloc; "{front}{number}")?);
    match Name::read(alloc, made.as_str(), true) {
        Ok(name) => Ok(Some(name)),
        Err(_) => Ok(None),
    }
}

fn add_constraint(
    schema: &Name,
    name: &Name,
    keys: &mut List<ObjectKey>,
) -> Result<(), AllocError> {
    add_key(constraint_key(schema, name), keys)
}

fn constraint_key(schema: &Name, name: &Name) -> Result<ObjectKey, AllocError> {
    match both(schema.copy(), name.fold()) {
        Ok((schema, folded)) => Ok(ObjectKey::Constraint { schema, folded }),
        Err(error) => Err(error),
    }
}

/// Adds the keys that this one brings with it, by what stands there.
pub(crate) fn add_brought(
    bringing: Bringing,
    key: &ObjectKey,
    object: &Object,
    keys: &mut List<ObjectKey>,
) -> Result<(), AllocError> {
    match (key, object) {
        (ObjectKey::Schemas, Object::Schemas(names)) => add_lists(names.as_slice(), keys),
        (ObjectKey::Objects(schema), Object::Objects(names)) => {
            add_objects(schema, names.as_slice(), keys)
        }
        (ObjectKey::Object(table), Object::Table { .. }) => add_children(bringing, table, keys),
        (ObjectKey::Object(_), Object::View { def, .. }) => {
            add_sources(bringing, def.parts().sources.as_slice(), keys)
        }
        (ObjectKey::Children(_), Object::Children(tables)) => {
            add_whole(bringing, tables.as_slice(), keys)
        }
        _ => Ok(()),
    }
}

// The list of the objects of each schema.
fn add_lists(schemas: &[Name], keys: &mut List<ObjectKey>) -> Result<(), AllocError> {
    'schemas: for schema in schemas {
        add_key(schema.copy().map(ObjectKey::Objects), keys)?;
    }
    Ok(())
}

fn add_sources(
    bringing: Bringing,
    sources: &[ViewSource],
    keys: &mut List<ObjectKey>,
) -> Result<(), AllocError> {
    match bringing {
        Bringing::Nothing | Bringing::Children | Bringing::WholeChildren => Ok(()),
        Bringing::Sources => add_each_source(sources, keys),
    }
}

fn add_each_source(sources: &[ViewSource], keys: &mut List<ObjectKey>) -> Result<(), AllocError> {
    'sources: for source in sources {
        add_object(&source.object.schema, &source.object.name, keys)?;
    }
    Ok(())
}

fn add_objects(
    schema: &Name,
    names: &[Name],
    keys: &mut List<ObjectKey>,
) -> Result<(), AllocError> {
    'names: for name in names {
        add_object(schema, name, keys)?;
    }
    Ok(())
}

fn add_children(
    bringing: Bringing,
    table: &ObjName,
    keys: &mut List<ObjectKey>,
) -> Result<(), AllocError> {
    match bringing {
        Bringing::Nothing | Bringing::Sources => Ok(()),
        Bringing::Children | Bringing::WholeChildren => {
            add_key(table.copy().map(ObjectKey::Children), keys)
        }
    }
}

fn add_whole(
    bringing: Bringing,
    tables: &[ObjName],
    keys: &mut List<ObjectKey>,
) -> Result<(), AllocError> {
    match bringing {
        Bringing::Nothing | Bringing::Children | Bringing::Sources => Ok(()),
        Bringing::WholeChildren => add_tables(tables, keys),
    }
}

fn add_tables(tables: &[ObjName], keys: &mut List<ObjectKey>) -> Result<(), AllocError> {
    'tables: for table in tables {
        add_object(&table.schema, &table.name, keys)?;
    }
    Ok(())
}

fn add_object(schema: &Name, name: &Name, keys: &mut List<ObjectKey>) -> Result<(), AllocError> {
    add_key(object_key(schema, name), keys)
}

fn object_key(schema: &Name, name: &Name) -> Result<ObjectKey, AllocError> {
    match both(schema.copy(), name.copy()) {
        Ok((schema, name)) => Ok(ObjectKey::Object(ObjName { schema, name })),
        Err(error) => Err(error),
    }
}

// Adds a key, where there was memory for it.
fn add_key(
    made: Result<ObjectKey, AllocError>,
    keys: &mut List<ObjectKey>,
) -> Result<(), AllocError> {
    match made {
        Ok(key) => Ok(keys.push(key)?),
        Err(error) => Err(error),
    }
}
