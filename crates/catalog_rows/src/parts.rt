// Parts of tables and views as fields.
ghost use Rattle.std.specs.Prelude.{◌≡◌, ◌<◌, ◌^◌, [], ◌∷◌, ◌++◌, length, position, IfOk, OnOk};
ghost use Rattle.std.specs.List.{AllByRecursion, flat_map};
ghost use Rattle.std.specs.Str.{bytes_eq};
ghost use Rattle.dd_names.specs.Names.{IsName};
ghost use Rattle.dd_definitions.specs.declared.columns.ColumnDef.{ColumnDef};
ghost use Rattle.row_fields.specs.Fields.{Fits};
ghost use Rattle.catalog_rows.specs.Parts.{column_fields, index_fields, column_place, key_fields, source_fields, output_fields, view_fields};
ghost use Rattle.catalog_rows.specs.Stands.{FitsColumn, FitsDefault, FitsSource, FitsOutput, FitsView};

use crate::numbers::{class_number, flag, rule_number, type_length, type_number};
use dd_definitions::{ColumnDef, ForeignKeyDef, IndexDef, ViewColumn, ViewParts, ViewSource};
use dd_names::{Name, ObjName, Text};
use row_batch::Bytes;
use row_fields::Field;
use std::alloc::{AllocError, Global};

/// A name behind its length.
pub fn text(alloc: Global, name: &Name) -> Result<Field, AllocError>
    ensures field { IfOk result (λ field. field ≡ Field.Text name.now) }
    ensures name { IsName name.now }
{
    Ok(Field::Text(Bytes::of(alloc, name.as_str().as_bytes())?))
}

/// A name before a zero.
#[tactic(auto, using(crate::proofs::Fitting::ended_fits))]
pub fn ended(alloc: Global, name: &Name) -> Result<Field, AllocError>
    ensures field { IfOk result (λ field. field ≡ Field.Ended name.now) }
    ensures name { IsName name.now }
    ensures fits { Fits (Field.Ended name.now) }
{
    Ok(Field::Ended(Bytes::of(alloc, name.as_str().as_bytes())?))
}

/// The two names of an object, each behind its length.
pub fn object_name(alloc: Global, name: &ObjName) -> Result<[Field; 2], AllocError>
    ensures fields { IfOk result (λ fields. fields ≡ Field.Text name.now.schema ∷ Field.Text name.now.name ∷ []) }
    ensures schema { IfOk result (λ _. IsName name.now.schema) }
    ensures name { IfOk result (λ _. IsName name.now.name) }
{
    let schema = text(alloc, &name.schema)?;
    let name = text(alloc, &name.name)?;
    Ok([schema, name])
}

/// A column's fields.
pub fn column_fields(alloc: Global, column: &ColumnDef) -> Result<[Field; 6], AllocError>
    ensures fields { IfOk result (λ fields. fields ≡ column_fields column.now) }
    ensures fits { IfOk result (λ _. FitsColumn column.now) }
{
    let name = text(alloc, &column.name)?;
    let default = default_field(alloc, &column.default)?;
    Ok([
        name,
        Field::Byte(type_number(column.kind)),
        Field::Short(type_length(column.kind)),
        Field::Byte(flag(column.nullable)),
        Field::Byte(flag(column.auto)),
        default,
    ])
}

fn default_field(alloc: Global, default: &Option<Text>) -> Result<Field, AllocError>
    ensures field { IfOk result (λ field. field ≡ Field.Maybe default.now) }
    ensures fits { IfOk result (λ _. FitsDefault default.now) }
{
    match default {
        None => Ok(Field::Maybe(None)),
        Some(text) => some_default(alloc, text),
    }
}

fn some_default(alloc: Global, text: &Text) -> Result<Field, AllocError>
    ensures field { IfOk result (λ field. field ≡ Field.Maybe (Some text.now)) }
    ensures fits { IfOk result (λ _. FitsDefault (Some text.now)) }
{
    let text = text.as_str();
    if text.len() > 4_294_967_295 {
        return Err(AllocError);
    }
    Ok(Field::Maybe(Some(Bytes::of(alloc, text.as_bytes())?)))
}

/// An index's fields.
pub fn index_fields(alloc: Global, index: &IndexDef) -> Result<[Field; 2], AllocError>
    ensures fields { IfOk result (λ fields. fields ≡ index_fields index.now) }
    ensures name { IfOk result (λ _. IsName index.now.name) }
{
    let name = text(alloc, &index.name)?;
    Ok([name, Field::Byte(class_number(index.class))])
}

/// A foreign key's fields.
pub fn key_fields(alloc: Global, key: &ForeignKeyDef) -> Result<[Field; 5], AllocError>
    ensures fields { IfOk result (λ fields. fields ≡ key_fields key.now) }
    ensures name { IfOk result (λ _. IsName key.now.name) }
    ensures schema { IfOk result (λ _. IsName key.now.parent.schema) }
    ensures parent { IfOk result (λ _. IsName key.now.parent.name) }
{
    let name = text(alloc, &key.name)?;
    let schema = text(alloc, &key.parent.schema)?;
    let parent = text(alloc, &key.parent.name)?;
    Ok([
        name,
        schema,
        parent,
        Field::Byte(rule_number(key.on_delete)),
        Field::Byte(rule_number(key.on_update)),
    ])
}

/// The place of a column among the columns of its table, or their number where it isn't there.
#[tactic(auto, unfolding(crate::specs::Parts::column_place))]
pub fn column_place(columns: &[ColumnDef], name: &Name) -> usize
    ensures { result ≡ column_place columns.now name.now }
{
    match first_named(columns, name) {
        Some(place) => place,
        None => columns.len(),
    }
}

fn first_named(columns: &[ColumnDef], name: &Name) -> Option<usize>
    ensures { result ≡ position (λ (c : ColumnDef). bytes_eq c.name name.now) columns.now }
{
    columns.iter().position(|column| column.name == *name)
}

/// A view's fields.
#[tactic(auto, unfolding(crate::specs::Parts::view_fields))]
pub fn view_fields(alloc: Global, parts: &ViewParts) -> Result<Vec<Field>, AllocError>
    ensures fields { IfOk result (λ fields. fields.items ≡ view_fields parts.now) }
    ensures fits { IfOk result (λ _. FitsView parts.now) }
{
    let sources = parts.sources.as_slice();
    let outputs = parts.outputs.as_slice();
    if sources.len() > 4_294_967_295 || outputs.len() > 65_535 {
        return Err(AllocError);
    }
    let mut fields = Vec::new(alloc);
    fields.push(Field::Long(sources.len() as u32))?;
    push_sources(alloc, &mut fields, sources)?;
    fields.push(Field::Short(outputs.len() as u16))?;
    push_outputs(alloc, &mut fields, outputs)?;
    Ok(fields)
}

fn push_sources(
    alloc: Global,
    fields: &mut Vec<Field>,
    sources: &[ViewSource],
) -> Result<(), AllocError>
    ensures fields { OnOk result (fields.new.items ≡ fields.old.items ++ flat_map source_fields sources.now) }
    ensures fits { OnOk result (AllByRecursion FitsSource sources.now) }
{
    'each: for source in sources {
        push_source(alloc, fields, source)?;
    }
    Ok(())
}

fn push_source(
    alloc: Global,
    fields: &mut Vec<Field>,
    source: &ViewSource,
) -> Result<(), AllocError>
    ensures fields { OnOk result (fields.new.items ≡ fields.old.items ++ source_fields source.now) }
    ensures fits { OnOk result (FitsSource source.now) }
{
    push_name(alloc, fields, &source.object.schema)?;
    push_name(alloc, fields, &source.object.name)?;
    push_name(alloc, fields, &source.alias)
}

fn push_outputs(
    alloc: Global,
    fields: &mut Vec<Field>,
    outputs: &[ViewColumn],
) -> Result<(), AllocError>
    ensures fields { OnOk result (fields.new.items ≡ fields.old.items ++ flat_map output_fields outputs.now) }
    ensures fits { OnOk result (AllByRecursion FitsOutput outputs.now) }
{
    'each: for output in outputs {
        push_output(alloc, fields, output)?;
    }
    Ok(())
}

fn push_output(
    alloc: Global,
    fields: &mut Vec<Field>,
    output: &ViewColumn,
) -> Result<(), AllocError>
    ensures fields { OnOk result (fields.new.items ≡ fields.old.items ++ output_fields output.now) }
    ensures fits { OnOk result (FitsOutput output.now) }
{
    push_long(fields, output.source)?;
    push_name(alloc, fields, &output.column)?;
    push_name(alloc, fields, &output.output)
}

fn push_long(fields: &mut Vec<Field>, number: u32) -> Result<(), AllocError>
    ensures fields { OnOk result (fields.new.items ≡ fields.old.items ++ Field.Long number ∷ []) }
    ensures fits { number < 2 ^ 32 }
{
    fields.push(Field::Long(number))?;
    Ok(())
}

fn push_name(alloc: Global, fields: &mut Vec<Field>, name: &Name) -> Result<(), AllocError>
    ensures fields { OnOk result (fields.new.items ≡ fields.old.items ++ Field.Text name.now ∷ []) }
    ensures name { OnOk result (IsName name.now) }
{
    let field = text(alloc, name)?;
    fields.push(field)?;
    Ok(())
}
