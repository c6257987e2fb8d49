ghost use Rattle.std.specs.Prelude.{◌≡◌, OnOk};
ghost use Rattle.serde_json.specs.Data.{Data, put, string, boolean, number as json_number, unsigned};
ghost use Rattle.serde_json.specs.View.{view, members_view};
ghost use Rattle.sdi_text.specs.Values.{array_of, default_value};

use crate::part::{Part, values};
use dd_names::Text;
use serde_json::{Map, Value, put};
use std::alloc::{AllocError, Global};

/// The members of an object.
pub(crate) type Members = Map<String, Value>;

/// Puts a text at a key.
pub(crate) fn put_text(
    alloc: Global,
    members: &mut Members,
    key: &str,
    text: &str,
) -> Result<(), AllocError>
    ensures { OnOk result (members_view members.new.entries ≡ put key.now (string text.now) (members_view members.old.entries)) }
{
    let value = Value::try_from_str(alloc, text)?;
    put(members, alloc, key, value)
}

/// Puts a flag at a key.
pub(crate) fn put_flag(
    alloc: Global,
    members: &mut Members,
    key: &str,
    flag: bool,
) -> Result<(), AllocError>
    ensures { OnOk result (members_view members.new.entries ≡ put key.now (boolean flag) (members_view members.old.entries)) }
{
    put(members, alloc, key, Value::Bool(flag))
}

/// Puts a number at a key.
pub(crate) fn put_number(
    alloc: Global,
    members: &mut Members,
    key: &str,
    number: u32,
) -> Result<(), AllocError>
    ensures { OnOk result (members_view members.new.entries ≡ put key.now (json_number (unsigned number)) (members_view members.old.entries)) }
{
    put(members, alloc, key, Value::from(number))
}

/// Puts an array with a value for each part at a key.
pub(crate) fn put_parts<P: Part>(
    alloc: Global,
    members: &mut Members,
    key: &str,
    parts: &[P],
) -> Result<(), AllocError>
    ensures { OnOk result (members_view members.new.entries ≡ put key.now (array_of P.value_of parts.now) (members_view members.old.entries)) }
{
    let values = values(alloc, parts)?;
    put(members, alloc, key, Value::Array(values))
}

/// Puts a default at the key `default`, null where there is none.
pub(crate) fn put_default(
    alloc: Global,
    members: &mut Members,
    key: &str,
    default: &Option<Text>,
) -> Result<(), AllocError>
    ensures { OnOk result (members_view members.new.entries ≡ put key.now (default_value default.now) (members_view members.old.entries)) }
{
    match default {
        None => put(members, alloc, key, Value::Null),
        Some(text) => put_text(alloc, members, key, text.as_str()),
    }
}
