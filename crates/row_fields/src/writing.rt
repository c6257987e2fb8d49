// The bytes of fields.
ghost use Rattle.std.specs.Prelude.{◌≡◌, ◌<◌, ◌^◌, List, [], ◌∷◌, ◌++◌, length, IfOk, OnOk};
ghost use Rattle.row_batch.specs.Batches.{key_bytes};
ghost use Rattle.std.specs.List.{AllByRecursion};
ghost use Rattle.row_fields.specs.Fields.{field_bytes, fields_bytes, maybe_bytes, Fits, FitsMaybe};

use crate::fields::Field;
use row_batch::Bytes;
use std::alloc::{AllocError, Global};

/// The bytes of fields, one after the other.
pub fn bytes_of(alloc: Global, fields: &[Field]) -> Result<Vec<u8>, AllocError>
    requires { AllByRecursion Fits fields.now }
    ensures { IfOk result (λ bytes. bytes.items ≡ fields_bytes fields.now) }
{
    let mut bytes = Vec::new(alloc);
    push_fields(&mut bytes, fields)?;
    Ok(bytes)
}

/// Adds the bytes of fields at the end.
pub fn push_fields(bytes: &mut Vec<u8>, fields: &[Field]) -> Result<(), AllocError>
    requires { AllByRecursion Fits fields.now }
    ensures { OnOk result (bytes.new.items ≡ bytes.old.items ++ fields_bytes fields.now) }
{
    'each: for field in fields {
        push_field(bytes, field)?;
    }
    Ok(())
}

#[tactic(auto, unfolding(crate::specs::Fields::field_bytes))]
fn push_field(bytes: &mut Vec<u8>, field: &Field) -> Result<(), AllocError>
    requires { Fits field.now }
    ensures { OnOk result (bytes.new.items ≡ bytes.old.items ++ field_bytes field.now) }
{
    match field {
        Field::Byte(number) => bytes.extend_from_slice(&[*number]),
        Field::Short(number) => bytes.extend_from_slice(&number.to_be_bytes()),
        Field::Long(number) => bytes.extend_from_slice(&number.to_be_bytes()),
        Field::Huge(number) => bytes.extend_from_slice(&number.to_be_bytes()),
        Field::Text(text) => push_text(bytes, text.as_slice()),
        Field::Ended(text) => push_ended(bytes, text.as_slice()),
        Field::Maybe(text) => push_maybe(bytes, text),
    }
}

fn push_text(bytes: &mut Vec<u8>, text: &[u8]) -> Result<(), AllocError>
    requires { length text.now < 2 ^ 16 }
    ensures { OnOk result (bytes.new.items ≡ bytes.old.items ++ key_bytes text.now) }
{
    let length = text.len() as u16;
    bytes.extend_from_slice(&length.to_be_bytes())?;
    bytes.extend_from_slice(text)
}

fn push_ended(bytes: &mut Vec<u8>, text: &[u8]) -> Result<(), AllocError>
    ensures { OnOk result (bytes.new.items ≡ bytes.old.items ++ (text.now ++ 0 ∷ [])) }
{
    bytes.extend_from_slice(text)?;
    bytes.extend_from_slice(&[0])
}

fn push_maybe(bytes: &mut Vec<u8>, text: &Option<Bytes>) -> Result<(), AllocError>
    requires { FitsMaybe text.now }
    ensures { OnOk result (bytes.new.items ≡ bytes.old.items ++ maybe_bytes text.now) }
{
    match text {
        None => {
            bytes.push(0)?;
            Ok(())
        }
        Some(text) => {
            let length = text.as_slice().len() as u32;
            bytes.push(1)?;
            bytes.extend_from_slice(&length.to_be_bytes())?;
            bytes.extend_from_slice(text.as_slice())
        }
    }
}
