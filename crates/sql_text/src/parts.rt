ghost use Rattle.std.specs.Prelude.{OnOk};
ghost use Rattle.sql_pieces.specs.Pieces.{Adds};
ghost use Rattle.sql_text.specs.Parts.{if_not_exists_pieces, if_exists_pieces, name_pieces, object_pieces, schema_pieces, where_some};

use dd_names::{List, Name, Text};
use sql_pieces::push_name;
use sql_types::ObjRef;
use std::alloc::AllocError;

/// IF NOT EXISTS, where it stands.
pub fn put_if_not_exists(out: &mut Text, stands: bool) -> Result<(), AllocError>
    ensures { OnOk result (Adds out.old out.new (if_not_exists_pieces stands)) }
{
    if stands {
        out.push_str(" IF NOT EXISTS")?;
    }
    Ok(())
}

/// IF EXISTS, where it stands.
pub fn put_if_exists(out: &mut Text, stands: bool) -> Result<(), AllocError>
    ensures { OnOk result (Adds out.old out.new (if_exists_pieces stands)) }
{
    if stands {
        out.push_str(" IF EXISTS")?;
    }
    Ok(())
}

/// A name.
pub fn put_name(out: &mut Text, name: &Name) -> Result<(), AllocError>
    ensures { OnOk result (Adds out.old out.new (name_pieces name.now)) }
{
    out.push_str(" ")?;
    push_name(out, name)
}

/// A schema before a name, where there is one.
pub fn put_schema(out: &mut Text, schema: &Option<Name>) -> Result<(), AllocError>
    ensures { OnOk result (Adds out.old out.new (where_some schema_pieces schema.now)) }
{
    if let Some(schema) = schema {
        put_name(out, schema)?;
        out.push_str(" .")?;
    }
    Ok(())
}

/// The name of an object, with its schema where it has one.
pub fn put_object(out: &mut Text, object: &ObjRef) -> Result<(), AllocError>
    ensures { OnOk result (Adds out.old out.new (object_pieces object.now)) }
{
    put_schema(out, &object.schema)?;
    put_name(out, &object.name)?;
    Ok(())
}
