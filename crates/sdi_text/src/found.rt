// What an object has at a key.
ghost use Rattle.std.specs.Prelude.{◌≡◌, ◌<◌, ◌^◌, ℕ, Bool, List, Option, Some, option_map};
ghost use Rattle.std.specs.List.{AllByRecursion};
ghost use Rattle.serde_json.specs.Data.{string, boolean, number as json_number, unsigned};
ghost use Rattle.serde_json.specs.Find.{get};
ghost use Rattle.serde_json.specs.View.{view};
ghost use Rattle.dd_names.specs.Names.{IsName};
ghost use Rattle.show_text.specs.Columns.{type_text};
ghost use Rattle.show_text.specs.Keys.{rule_name};
ghost use Rattle.sql_types.specs.declared.choices.ColumnType.{ColumnType};
ghost use Rattle.sql_types.specs.declared.choices.IndexClass.{IndexClass};
ghost use Rattle.sql_types.specs.declared.choices.FkRule.{FkRule};
ghost use Rattle.sdi_text.specs.Words.{class_word};
ghost use Rattle.sdi_text.specs.Values.{array_of, default_value};
ghost use Rattle.sdi_text.specs.Reading.{Reads, IsHeldType};

use crate::fault::{SdiFault, of_name};
use crate::part::{Part, parts};
use crate::type_words::type_of;
use dd_names::{List, Name, Text};
use serde_json::Value;
use sql_types::{ColumnType, FkRule, IndexClass};
use std::alloc::Global;

/// The name that a text is.
pub(crate) fn name_of(alloc: Global, text: &str) -> Result<Name, SdiFault>
    ensures { IsName text.now → Reads text.now result }
{
    match Name::read(alloc, text, true) {
        Ok(name) => Ok(name),
        Err(fault) => Err(of_name(fault)),
    }
}

/// The text at a key.
fn text_at<'v>(value: &'v Value, key: &str) -> Option<&'v str>
    ensures { (text : List ℕ) → get key.now (view value.now) ≡ Some (string text) → option_map (λ found. found.now) result ≡ Some text }
{
    match value.get(key) {
        Some(found) => found.as_str(),
        None => None,
    }
}

/// The name at a key.
pub(crate) fn name_at(alloc: Global, value: &Value, key: &str) -> Result<Name, SdiFault>
    ensures { (name : List ℕ) → IsName name → get key.now (view value.now) ≡ Some (string name) → Reads name result }
{
    match text_at(value, key) {
        Some(text) => name_of(alloc, text),
        None => Err(SdiFault::NotSdi),
    }
}

/// The flag at a key.
pub(crate) fn flag_at(value: &Value, key: &str) -> Result<bool, SdiFault>
    ensures { (flag : Bool) → get key.now (view value.now) ≡ Some (boolean flag) → Reads flag result }
{
    let Some(found) = value.get(key) else {
        return Err(SdiFault::NotSdi);
    };
    match found.as_bool() {
        Some(flag) => Ok(flag),
        None => Err(SdiFault::NotSdi),
    }
}

/// The number at a key.
pub(crate) fn number_at(value: &Value, key: &str) -> Result<u32, SdiFault>
    ensures { (number : ℕ) → number < 2 ^ 32 → get key.now (view value.now) ≡ Some (json_number (unsigned number)) → Reads number result }
{
    let Some(found) = value.get(key) else {
        return Err(SdiFault::NotSdi);
    };
    match found.as_u64() {
        Some(number) if number <= 4_294_967_295 => Ok(number as u32),
        Some(_) | None => Err(SdiFault::NotSdi),
    }
}

/// The default at a key.
pub(crate) fn default_at(alloc: Global, value: &Value, key: &str) -> Result<Option<Text>, SdiFault>
    ensures { (default : Option (List ℕ)) → get key.now (view value.now) ≡ Some (default_value default) → Reads default result }
{
    match value.get(key) {
        Some(found) => default_of(alloc, found),
        None => Err(SdiFault::NotSdi),
    }
}

fn default_of(alloc: Global, value: &Value) -> Result<Option<Text>, SdiFault>
    ensures { (default : Option (List ℕ)) → view value.now ≡ default_value default → Reads default result }
{
    if value.is_null() {
        return Ok(None);
    }
    let Some(text) = value.as_str() else {
        return Err(SdiFault::NotSdi);
    };
    match Text::of(alloc, text) {
        Ok(text) => Ok(Some(text)),
        Err(_) => Err(SdiFault::Memory),
    }
}

/// The parts at a key.
pub(crate) fn parts_at<P: Part + Drop>(
    alloc: Global,
    value: &Value,
    key: &str,
) -> Result<List<P>, SdiFault>
    ensures { (parts : List P) → AllByRecursion P.IsHeld parts → get key.now (view value.now) ≡ Some (array_of P.value_of parts) → Reads parts result }
{
    let Some(found) = value.get(key) else {
        return Err(SdiFault::NotSdi);
    };
    match found.as_array() {
        Some(values) => parts(alloc, values.as_slice()),
        None => Err(SdiFault::NotSdi),
    }
}

/// The type at a key.
pub(crate) fn type_at(value: &Value, key: &str) -> Result<ColumnType, SdiFault>
    ensures { (kind : ColumnType) → IsHeldType kind → get key.now (view value.now) ≡ Some (string (type_text kind)) → Reads kind result }
{
    let Some(text) = text_at(value, key) else {
        return Err(SdiFault::NotSdi);
    };
    match type_of(text) {
        Some(kind) => Ok(kind),
        None => Err(SdiFault::NotSdi),
    }
}

/// The class of an index at a key.
pub(crate) fn class_at(value: &Value, key: &str) -> Result<IndexClass, SdiFault>
    ensures { (class : IndexClass) → get key.now (view value.now) ≡ Some (string (class_word class)) → Reads class result }
{
    match text_at(value, key) {
        Some(text) => class_of(text),
        None => Err(SdiFault::NotSdi),
    }
}

fn class_of(text: &str) -> Result<IndexClass, SdiFault>
    ensures { (class : IndexClass) → text.now ≡ class_word class → Reads class result }
{
    match text {
        "primary" => Ok(IndexClass::Primary),
        "unique" => Ok(IndexClass::Unique),
        "plain" => Ok(IndexClass::Plain),
        _ => Err(SdiFault::NotSdi),
    }
}

/// The rule of a foreign key at a key.
pub(crate) fn rule_at(value: &Value, key: &str) -> Result<FkRule, SdiFault>
    ensures { (rule : FkRule) → get key.now (view value.now) ≡ Some (string (rule_name rule)) → Reads rule result }
{
    match text_at(value, key) {
        Some(text) => rule_of(text),
        None => Err(SdiFault::NotSdi),
    }
}

fn rule_of(text: &str) -> Result<FkRule, SdiFault>
    ensures { (rule : FkRule) → text.now ≡ rule_name rule → Reads rule result }
{
    match text {
        "NO ACTION" => Ok(FkRule::NoAction),
        "RESTRICT" => Ok(FkRule::Restrict),
        "CASCADE" => Ok(FkRule::Cascade),
        "SET NULL" => Ok(FkRule::SetNull),
        _ => Err(SdiFault::NotSdi),
    }
}
