// What a statement's text claims, before anything is looked at.
ghost use Rattle.std.specs.Prelude.{◌≡◌, ◌++◌, ◌∷◌, [], IfOk, OnOk, Some};
ghost use Rattle.std.specs.List.{flat_map};
ghost use Rattle.std.specs.Option.{option_map};
ghost use Rattle.rules_elements.specs.Keys.{first_given};
ghost use Rattle.rules_named.specs.Named.{object_in};
ghost use Rattle.rules_footprint.specs.Coded.{claims_of};
ghost use Rattle.rules_intents.specs.Intents.{action_claims, alter_claims, at_named, body_claims, changes, creation_claims, element_claims, foreign_key_claims, index_claims, joins, listed_claims, name_given, pair_claims, reads, schema_claims, session_claims, show_claims, source_claims, table_claims, text_claims, view_claims};

use crate::claims::Claim;
use crate::looks::add;
use crate::plans::{add_schema, taken_name};
use dd_names::{List, Name, ObjName, TryCopy, both};
use rules_named::first_given;
use sql_ast::{
    AlterAction, CreateTable, Element, IndexStatement, RenamePair, SchemaStatement, Select,
    SelectSource, SessionStatement, ShowStatement, ShownCreation, Statement, TableBody,
    TableStatement, ViewStatement,
};
use sql_types::{FkWords, ObjRef};
use std::alloc::AllocError;

pub(crate) fn add_text(
    claims: &mut List<Claim>,
    current: &Option<Name>,
    statement: &Statement,
) -> Result<(), AllocError>
    ensures { OnOk result (claims_of claims.new ≡ claims_of claims.old ++ text_claims current.now statement.now) }
{
    match statement {
        Statement::Schema(statement) => add_schemas(claims, statement),
        Statement::Table(statement) => add_tables(claims, current, statement),
        Statement::Show(statement) => add_shown(claims, current, statement),
        Statement::View(statement) => add_views(claims, current, statement),
        Statement::Session(statement) => add_session(claims, statement),
        Statement::Bad(_) => Ok(()),
    }
}

fn add_schemas(claims: &mut List<Claim>, statement: &SchemaStatement) -> Result<(), AllocError>
    ensures { OnOk result (claims_of claims.new ≡ claims_of claims.old ++ schema_claims statement.now) }
{
    match statement {
        SchemaStatement::Create { name, .. } | SchemaStatement::Drop { name, .. } => {
            add_schema(claims, name)
        }
    }
}

fn add_session(claims: &mut List<Claim>, statement: &SessionStatement) -> Result<(), AllocError>
    ensures { OnOk result (claims_of claims.new ≡ claims_of claims.old ++ session_claims statement.now) }
{
    match statement {
        SessionStatement::Use { name } => add(claims, Claim::KeepSchema(name.copy()?)),
        SessionStatement::SetTries { .. } => Ok(()),
    }
}

fn add_shown(
    claims: &mut List<Claim>,
    current: &Option<Name>,
    statement: &ShowStatement,
) -> Result<(), AllocError>
    ensures { OnOk result (claims_of claims.new ≡ claims_of claims.old ++ show_claims current.now statement.now) }
{
    match statement {
        ShowStatement::Databases | ShowStatement::Information { .. } => {
            add(claims, Claim::KeepSchemas)
        }
        ShowStatement::Tables { schema } => add_listed(claims, current, schema),
        ShowStatement::Creation(shown) => add_creation(claims, current, shown),
        ShowStatement::Columns { object } => add_read(claims, current, object),
    }
}

fn add_listed(
    claims: &mut List<Claim>,
    current: &Option<Name>,
    schema: &Option<Name>,
) -> Result<(), AllocError>
    ensures { OnOk result (claims_of claims.new ≡ claims_of claims.old ++ listed_claims (first_given schema.now current.now)) }
{
    match first_given(schema, current) {
        None => Ok(()),
        Some(schema) => add(claims, Claim::KeepObjects(schema.copy()?)),
    }
}

fn add_creation(
    claims: &mut List<Claim>,
    current: &Option<Name>,
    shown: &ShownCreation,
) -> Result<(), AllocError>
    ensures { OnOk result (claims_of claims.new ≡ claims_of claims.old ++ creation_claims current.now shown.now) }
{
    match shown {
        ShownCreation::Database { name } => add(claims, Claim::KeepSchema(name.copy()?)),
        ShownCreation::Table { object } | ShownCreation::View { object } => {
            add_read(claims, current, object)
        }
    }
}

/// The object of that name, where a schema is written or current.
fn named(current: &Option<Name>, named: &ObjRef) -> Result<Option<ObjName>, AllocError>
    ensures { IfOk result (λ object. object ≡ option_map (λ schema. object_in schema named.now.name) (first_given named.now.schema current.now)) }
{
    match first_given(&named.schema, current) {
        None => Ok(None),
        Some(schema) => match both(schema.copy(), named.name.copy()) {
            Ok((schema, name)) => Ok(Some(ObjName { schema, name })),
            Err(error) => Err(error),
        },
    }
}

fn add_read(
    claims: &mut List<Claim>,
    current: &Option<Name>,
    object: &ObjRef,
) -> Result<(), AllocError>
    ensures { OnOk result (claims_of claims.new ≡ claims_of claims.old ++ at_named reads current.now object.now) }
{
    match named(current, object)? {
        None => Ok(()),
        Some(object) => add(claims, Claim::KeepObject(object)),
    }
}

fn add_changed(
    claims: &mut List<Claim>,
    current: &Option<Name>,
    object: &ObjRef,
) -> Result<(), AllocError>
    ensures { OnOk result (claims_of claims.new ≡ claims_of claims.old ++ at_named changes current.now object.now) }
{
    match named(current, object)? {
        None => Ok(()),
        Some(object) => add(claims, Claim::ChangeObject(object)),
    }
}

fn add_tables(
    claims: &mut List<Claim>,
    current: &Option<Name>,
    statement: &TableStatement,
) -> Result<(), AllocError>
    ensures { OnOk result (claims_of claims.new ≡ claims_of claims.old ++ table_claims current.now statement.now) }
{
    add(claims, Claim::ChangeCatalog)?;
    match statement {
        TableStatement::Create(words) => add_created(claims, current, words),
        TableStatement::Drop { tables, .. } => add_dropped(claims, current, tables.as_slice()),
        TableStatement::Rename { pairs } => add_pairs(claims, current, pairs.as_slice()),
        TableStatement::Truncate { table } => add_changed(claims, current, table),
        TableStatement::Alter { table, actions } => {
            add_altered(claims, current, table, actions.as_slice())
        }
        TableStatement::Index(statement) => add_index(claims, current, statement),
    }
}

fn add_created(
    claims: &mut List<Claim>,
    current: &Option<Name>,
    words: &CreateTable,
) -> Result<(), AllocError>
    ensures { OnOk result (claims_of claims.new ≡ claims_of claims.old ++ (at_named changes current.now words.now.table ++ body_claims current.now words.now.table words.now.body)) }
{
    add_changed(claims, current, &words.table)?;
    match &words.body {
        TableBody::Like(source) => add_read(claims, current, source),
        TableBody::Elements(elements) => {
            add_elements_of(claims, current, &words.table, elements.as_slice())
        }
    }
}

fn add_elements_of(
    claims: &mut List<Claim>,
    current: &Option<Name>,
    table: &ObjRef,
    elements: &[Element],
) -> Result<(), AllocError>
    ensures { OnOk result (claims_of claims.new ≡ claims_of claims.old ++ at_named (λ table. flat_map (element_claims table) elements.now) current.now table.now) }
{
    match named(current, table)? {
        None => Ok(()),
        Some(table) => add_elements(claims, &table, elements),
    }
}

fn add_elements(
    claims: &mut List<Claim>,
    table: &ObjName,
    elements: &[Element],
) -> Result<(), AllocError>
    ensures { OnOk result (claims_of claims.new ≡ claims_of claims.old ++ flat_map (element_claims table.now) elements.now) }
{
    'elements: for element in elements {
        add_element(claims, table, element)?;
    }
    Ok(())
}

fn add_element(
    claims: &mut List<Claim>,
    table: &ObjName,
    element: &Element,
) -> Result<(), AllocError>
    ensures { OnOk result (claims_of claims.new ≡ claims_of claims.old ++ element_claims table.now element.now) }
{
    match element {
        Element::ForeignKey(words) => add_foreign_key(claims, table, words),
        _ => Ok(()),
    }
}

/// The parent, which is in the table's schema where none is written, and the constraint's name.
fn add_foreign_key(
    claims: &mut List<Claim>,
    table: &ObjName,
    words: &FkWords,
) -> Result<(), AllocError>
    ensures { OnOk result (claims_of claims.new ≡ claims_of claims.old ++ foreign_key_claims table.now words.now) }
{
    add_parent(claims, &table.schema, &words.parent)?;
    add_given(claims, &table.schema, &words.constraint)
}

fn add_parent(claims: &mut List<Claim>, schema: &Name, parent: &ObjRef) -> Result<(), AllocError>
    ensures { OnOk result (claims_of claims.new ≡ claims_of claims.old ++ at_named joins (Some schema.now) parent.now) }
{
    let schema = match &parent.schema {
        Some(written) => written,
        None => schema,
    };
    match both(schema.copy(), parent.name.copy()) {
        Ok((schema, name)) => add(claims, Claim::JoinParent(ObjName { schema, name })),
        Err(error) => Err(error),
    }
}

fn add_given(claims: &mut List<Claim>, schema: &Name, name: &Option<Name>) -> Result<(), AllocError>
    ensures { OnOk result (claims_of claims.new ≡ claims_of claims.old ++ name_given schema.now name.now) }
{
    match name {
        None => Ok(()),
        Some(name) => add(claims, taken_name(schema, name)?),
    }
}

fn add_dropped(
    claims: &mut List<Claim>,
    current: &Option<Name>,
    tables: &[ObjRef],
) -> Result<(), AllocError>
    ensures { OnOk result (claims_of claims.new ≡ claims_of claims.old ++ flat_map (at_named changes current.now) tables.now) }
{
    'tables: for table in tables {
        add_changed(claims, current, table)?;
    }
    Ok(())
}

fn add_pairs(
    claims: &mut List<Claim>,
    current: &Option<Name>,
    pairs: &[RenamePair],
) -> Result<(), AllocError>
    ensures { OnOk result (claims_of claims.new ≡ claims_of claims.old ++ flat_map (pair_claims current.now) pairs.now) }
{
    'pairs: for pair in pairs {
        add_pair(claims, current, pair)?;
    }
    Ok(())
}

fn add_pair(
    claims: &mut List<Claim>,
    current: &Option<Name>,
    pair: &RenamePair,
) -> Result<(), AllocError>
    ensures { OnOk result (claims_of claims.new ≡ claims_of claims.old ++ pair_claims current.now pair.now) }
{
    add_changed(claims, current, &pair.from)?;
    add_changed(claims, current, &pair.to)
}

fn add_altered(
    claims: &mut List<Claim>,
    current: &Option<Name>,
    table: &ObjRef,
    actions: &[AlterAction],
) -> Result<(), AllocError>
    ensures { OnOk result (claims_of claims.new ≡ claims_of claims.old ++ at_named (alter_claims current.now actions.now) current.now table.now) }
{
    match named(current, table)? {
        None => Ok(()),
        Some(table) => add_alterations(claims, current, &table, actions),
    }
}

fn add_alterations(
    claims: &mut List<Claim>,
    current: &Option<Name>,
    table: &ObjName,
    actions: &[AlterAction],
) -> Result<(), AllocError>
    ensures { OnOk result (claims_of claims.new ≡ claims_of claims.old ++ alter_claims current.now actions.now table.now) }
{
    add(claims, Claim::ChangeObject(table.copy()?))?;
    add_actions(claims, current, table, actions)
}

fn add_actions(
    claims: &mut List<Claim>,
    current: &Option<Name>,
    table: &ObjName,
    actions: &[AlterAction],
) -> Result<(), AllocError>
    ensures { OnOk result (claims_of claims.new ≡ claims_of claims.old ++ flat_map (action_claims current.now table.now) actions.now) }
{
    'actions: for action in actions {
        add_action(claims, current, table, action)?;
    }
    Ok(())
}

fn add_action(
    claims: &mut List<Claim>,
    current: &Option<Name>,
    table: &ObjName,
    action: &AlterAction,
) -> Result<(), AllocError>
    ensures { OnOk result (claims_of claims.new ≡ claims_of claims.old ++ action_claims current.now table.now action.now) }
{
    match action {
        AlterAction::AddForeignKey(words) => add_foreign_key(claims, table, words),
        AlterAction::RenameTable { to } => add_changed(claims, current, to),
        _ => Ok(()),
    }
}

fn add_index(
    claims: &mut List<Claim>,
    current: &Option<Name>,
    statement: &IndexStatement,
) -> Result<(), AllocError>
    ensures { OnOk result (claims_of claims.new ≡ claims_of claims.old ++ index_claims current.now statement.now) }
{
    match statement {
        IndexStatement::Create { table, .. } | IndexStatement::Drop { table, .. } => {
            add_changed(claims, current, table)
        }
    }
}

fn add_views(
    claims: &mut List<Claim>,
    current: &Option<Name>,
    statement: &ViewStatement,
) -> Result<(), AllocError>
    ensures { OnOk result (claims_of claims.new ≡ claims_of claims.old ++ view_claims current.now statement.now) }
{
    add(claims, Claim::ChangeCatalog)?;
    match statement {
        ViewStatement::Create { view, query, .. } => add_view(claims, current, view, query),
        ViewStatement::Drop { views, .. } => add_dropped(claims, current, views.as_slice()),
    }
}

/// The view, and the sources that it names.
fn add_view(
    claims: &mut List<Claim>,
    current: &Option<Name>,
    view: &ObjRef,
    query: &Select,
) -> Result<(), AllocError>
    ensures { OnOk result (claims_of claims.new ≡ claims_of claims.old ++ (at_named changes current.now view.now ++ flat_map (source_claims current.now) query.now.sources)) }
{
    add_changed(claims, current, view)?;
    add_sources(claims, current, query.sources.as_slice())
}

fn add_sources(
    claims: &mut List<Claim>,
    current: &Option<Name>,
    sources: &[SelectSource],
) -> Result<(), AllocError>
    ensures { OnOk result (claims_of claims.new ≡ claims_of claims.old ++ flat_map (source_claims current.now) sources.now) }
{
    'sources: for source in sources {
        add_source(claims, current, source)?;
    }
    Ok(())
}

fn add_source(
    claims: &mut List<Claim>,
    current: &Option<Name>,
    source: &SelectSource,
) -> Result<(), AllocError>
    ensures { OnOk result (claims_of claims.new ≡ claims_of claims.old ++ source_claims current.now source.now) }
{
    add_read(claims, current, &source.object)
}
