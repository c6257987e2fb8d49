ghost use Rattle.std.specs.Prelude.{◌≡◌, ◌++◌, ◌∷◌, [], List, map, IfOk, MatchResult};
ghost use Rattle.std.specs.List.{AllByRecursion};
ghost use Rattle.serde_json.specs.Data.{Data, string};
ghost use Rattle.serde_json.specs.View.{view, items_view, items_of};
ghost use Rattle.dd_names.specs.Names.{IsName};
ghost use Rattle.sdi_text.specs.Reading.{Reads};

use crate::fault::SdiFault;
use crate::found::name_of;
use dd_names::{List, Name};
use serde_json::Value;
use std::alloc::{AllocError, Global};

/// A part of a table, of which an SDI has an array.
pub(crate) trait Part {
    ghost value_of: { Self → Data };

    ghost IsHeld: { Self → Type 0 };

    /// The value that the SDI has for it.
    fn value(&self, alloc: Global) -> Result<Value, AllocError>
        ensures { IfOk result (λ value. view value ≡ value_of self.now) };

    /// The part whose value this is.
    fn read(alloc: Global, value: &Value) -> Result<Self, SdiFault>
        ensures { (part : Self) → IsHeld part → view value.now ≡ value_of part → Reads part result };
}

impl Part for Name {
    ghost value_of = { string };

    ghost IsHeld = { IsName };

    fn value(&self, alloc: Global) -> Result<Value, AllocError> {
        Value::try_from_str(alloc, self.as_str())
    }

    fn read(alloc: Global, value: &Value) -> Result<Name, SdiFault> {
        match value.as_str() {
            Some(text) => name_of(alloc, text),
            None => Err(SdiFault::NotSdi),
        }
    }
}

/// The values of parts in order.
pub(crate) fn values<P: Part>(alloc: Global, parts: &[P]) -> Result<Vec<Value>, AllocError>
    ensures { IfOk result (λ values. map view values.items ≡ map P.value_of parts.now) }
{
    let mut values = Vec::new(alloc);
    'parts: for part in parts {
        let value = part.value(alloc)?;
        values.push(value)?;
    }
    Ok(values)
}

/// The parts whose values these are.
pub(crate) fn parts<P: Part + Drop>(alloc: Global, values: &[Value]) -> Result<List<P>, SdiFault>
    ensures { (parts : List P) → AllByRecursion P.IsHeld parts → map view values.now ≡ map P.value_of parts → Reads parts result }
{
    let mut list = List::new(alloc);
    let mut rest = values;
    'values: while let Some((value, others)) = rest.split_first() {
        add(alloc, &mut list, value)?;
        rest = others;
    }
    Ok(list)
}

/// Adds the part whose value this is.
fn add<P: Part + Drop>(alloc: Global, list: &mut List<P>, value: &Value) -> Result<(), SdiFault>
    ensures { (part : P) → P.IsHeld part → view value.now ≡ P.value_of part → MatchResult result (λ _. list.new ≡ list.old ++ part ∷ []) (λ fault. fault ≡ SdiFault.Memory) }
{
    let part = P::read(alloc, value)?;
    match list.push(part) {
        Ok(()) => Ok(()),
        Err(_) => Err(SdiFault::Memory),
    }
}
