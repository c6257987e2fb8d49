// Fields from their bytes.
ghost use Rattle.std.specs.Prelude.{◌≡◌, Option, IfOk, position, nat_eq};
ghost use Rattle.std.specs.Int.{w16, w32, w64};
ghost use Rattle.row_fields.specs.Reading.{Gives, number_at, string_at, byte_at, ended_at, maybe_at, field_at, fields_at, all_at};
ghost use Rattle.row_fields.specs.Repeated.{repeated};

use crate::faults::FieldFault;
use crate::fields::{Field, Kind};
use row_batch::Bytes;
use std::alloc::{AllocError, Global};

/// The fields of these kinds that the bytes are, all of them.
#[tactic(auto, unfolding(crate::specs::Reading::all_at))]
pub fn read_all(alloc: Global, kinds: &[Kind], bytes: &[u8]) -> Result<Vec<Field>, FieldFault>
    ensures { Gives (λ v. v.items) result (all_at kinds.now bytes.now) }
{
    let (fields, rest) = read_fields(alloc, kinds, bytes)?;
    if !rest.is_empty() {
        return Err(FieldFault::Malformed);
    }
    Ok(fields)
}

/// The fields of these kinds with which the bytes begin, and the bytes behind them.
pub fn read_fields<'a>(
    alloc: Global,
    kinds: &[Kind],
    bytes: &'a [u8],
) -> Result<(Vec<Field>, &'a [u8]), FieldFault>
    ensures { Gives (λ x. (x.0.items, x.1.now)) result (fields_at kinds.now bytes.now) }
{
    let mut fields = Vec::new(alloc);
    let mut rest = bytes;
    'each: for kind in kinds {
        let (field, after) = read_field(alloc, *kind, rest)?;
        fields.push(field)?;
        rest = after;
    }
    Ok((fields, rest))
}

/// The fields of so many groups of these kinds with which the bytes begin, and the bytes behind them.
pub fn read_repeated<'a>(
    alloc: Global,
    count: u32,
    kinds: &[Kind],
    bytes: &'a [u8],
) -> Result<(Vec<Field>, &'a [u8]), FieldFault>
    ensures { Gives (λ x. (x.0.items, x.1.now)) result (fields_at (repeated count kinds.now) bytes.now) }
{
    let all = repeated(alloc, count, kinds)?;
    read_fields(alloc, &all, bytes)
}

fn repeated(alloc: Global, count: u32, kinds: &[Kind]) -> Result<Vec<Kind>, AllocError>
    ensures { IfOk result (λ all. all.items ≡ repeated count kinds.now) }
{
    let mut all = Vec::new(alloc);
    'each: for _ in 0..count {
        all.extend_from_slice(kinds)?;
    }
    Ok(all)
}

#[tactic(auto, unfolding(crate::specs::Reading::field_at))]
fn read_field(alloc: Global, kind: Kind, bytes: &[u8]) -> Result<(Field, &[u8]), FieldFault>
    ensures { Gives (λ x. (x.0, x.1.now)) result (field_at kind bytes.now) }
{
    match kind {
        Kind::Byte => byte_field(bytes),
        Kind::Short => short_field(bytes),
        Kind::Long => long_field(bytes),
        Kind::Huge => huge_field(bytes),
        Kind::Text => text_field(alloc, bytes),
        Kind::Ended => ended_field(alloc, bytes),
        Kind::Maybe => maybe_field(alloc, bytes),
    }
}

#[tactic(auto, unfolding(crate::specs::Reading::field_at))]
fn byte_field(bytes: &[u8]) -> Result<(Field, &[u8]), FieldFault>
    ensures { Gives (λ x. (x.0, x.1.now)) result (field_at Kind.Byte bytes.now) }
{
    let (number, rest) = byte_at(bytes)?;
    Ok((Field::Byte(number), rest))
}

#[tactic(auto, unfolding(crate::specs::Reading::field_at))]
fn short_field(bytes: &[u8]) -> Result<(Field, &[u8]), FieldFault>
    ensures { Gives (λ x. (x.0, x.1.now)) result (field_at Kind.Short bytes.now) }
{
    let (number, rest) = short_at(bytes)?;
    Ok((Field::Short(number), rest))
}

#[tactic(auto, unfolding(crate::specs::Reading::field_at))]
fn long_field(bytes: &[u8]) -> Result<(Field, &[u8]), FieldFault>
    ensures { Gives (λ x. (x.0, x.1.now)) result (field_at Kind.Long bytes.now) }
{
    let (number, rest) = long_at(bytes)?;
    Ok((Field::Long(number), rest))
}

#[tactic(auto, unfolding(crate::specs::Reading::field_at))]
fn huge_field(bytes: &[u8]) -> Result<(Field, &[u8]), FieldFault>
    ensures { Gives (λ x. (x.0, x.1.now)) result (field_at Kind.Huge bytes.now) }
{
    let (number, rest) = huge_at(bytes)?;
    Ok((Field::Huge(number), rest))
}

#[tactic(auto, unfolding(crate::specs::Reading::field_at))]
fn text_field(alloc: Global, bytes: &[u8]) -> Result<(Field, &[u8]), FieldFault>
    ensures { Gives (λ x. (x.0, x.1.now)) result (field_at Kind.Text bytes.now) }
{
    let (text, rest) = text_at(alloc, bytes)?;
    Ok((Field::Text(text), rest))
}

#[tactic(auto, unfolding(crate::specs::Reading::field_at))]
fn ended_field(alloc: Global, bytes: &[u8]) -> Result<(Field, &[u8]), FieldFault>
    ensures { Gives (λ x. (x.0, x.1.now)) result (field_at Kind.Ended bytes.now) }
{
    let (text, rest) = ended_at(alloc, bytes)?;
    Ok((Field::Ended(text), rest))
}

#[tactic(auto, unfolding(crate::specs::Reading::field_at))]
fn maybe_field(alloc: Global, bytes: &[u8]) -> Result<(Field, &[u8]), FieldFault>
    ensures { Gives (λ x. (x.0, x.1.now)) result (field_at Kind.Maybe bytes.now) }
{
    let (text, rest) = maybe_at(alloc, bytes)?;
    Ok((Field::Maybe(text), rest))
}

#[tactic(auto, unfolding(row_batch::specs::Reading::string_at))]
fn text_at(alloc: Global, bytes: &[u8]) -> Result<(Bytes, &[u8]), FieldFault>
    ensures { Gives (λ x. (x.0, x.1.now)) result (string_at w16 bytes.now) }
{
    let (length, rest) = short_at(bytes)?;
    let length = length as usize;
    if rest.len() < length {
        return Err(FieldFault::Malformed);
    }
    let (text, rest) = rest.split_at(length);
    Ok((Bytes::of(alloc, text)?, rest))
}

#[tactic(auto, unfolding(crate::specs::Reading::ended_at))]
fn ended_at(alloc: Global, bytes: &[u8]) -> Result<(Bytes, &[u8]), FieldFault>
    ensures { Gives (λ x. (x.0, x.1.now)) result (ended_at bytes.now) }
{
    let Some(end) = first_zero(bytes) else {
        return Err(FieldFault::Malformed);
    };
    Ok((Bytes::of(alloc, &bytes[..end])?, &bytes[end + 1..]))
}

fn first_zero(bytes: &[u8]) -> Option<usize>
    ensures { result ≡ position (nat_eq 0) bytes.now }
{
    bytes.iter().position(|byte| 0 == *byte)
}

#[tactic(auto, unfolding(crate::specs::Reading::maybe_at))]
fn maybe_at(alloc: Global, bytes: &[u8]) -> Result<(Option<Bytes>, &[u8]), FieldFault>
    ensures { Gives (λ x. (x.0, x.1.now)) result (maybe_at bytes.now) }
{
    match bytes {
        [0, rest @ ..] => Ok((None, rest)),
        [1, rest @ ..] => {
            let (text, rest) = long_text_at(alloc, rest)?;
            Ok((Some(text), rest))
        }
        _ => Err(FieldFault::Malformed),
    }
}

#[tactic(auto, unfolding(row_batch::specs::Reading::string_at))]
fn long_text_at(alloc: Global, bytes: &[u8]) -> Result<(Bytes, &[u8]), FieldFault>
    ensures { Gives (λ x. (x.0, x.1.now)) result (string_at w32 bytes.now) }
{
    let (length, rest) = long_at(bytes)?;
    let length = length as usize;
    if rest.len() < length {
        return Err(FieldFault::Malformed);
    }
    let (text, rest) = rest.split_at(length);
    Ok((Bytes::of(alloc, text)?, rest))
}

fn byte_at(bytes: &[u8]) -> Result<(u8, &[u8]), FieldFault>
    ensures { Gives (λ x. (x.0, x.1.now)) result (byte_at bytes.now) }
{
    match bytes {
        [number, rest @ ..] => Ok((*number, rest)),
        [] => Err(FieldFault::Malformed),
    }
}

fn short_at(bytes: &[u8]) -> Result<(u16, &[u8]), FieldFault>
    ensures { Gives (λ x. (x.0, x.1.now)) result (number_at w16 bytes.now) }
{
    if bytes.len() < 2 {
        return Err(FieldFault::Malformed);
    }
    let (front, rest) = bytes.split_at(2);
    Ok((u16::from_be_bytes([front[0], front[1]]), rest))
}

fn long_at(bytes: &[u8]) -> Result<(u32, &[u8]), FieldFault>
    ensures { Gives (λ x. (x.0, x.1.now)) result (number_at w32 bytes.now) }
{
    if bytes.len() < 4 {
        return Err(FieldFault::Malformed);
    }
    let (front, rest) = bytes.split_at(4);
    let number = u32::from_be_bytes([front[0], front[1], front[2], front[3]]);
    Ok((number, rest))
}

fn huge_at(bytes: &[u8]) -> Result<(u64, &[u8]), FieldFault>
    ensures { Gives (λ x. (x.0, x.1.now)) result (number_at w64 bytes.now) }
{
    if bytes.len() < 8 {
        return Err(FieldFault::Malformed);
    }
    let (front, rest) = bytes.split_at(8);
    let number = u64::from_be_bytes([
        front[0], front[1], front[2], front[3], front[4], front[5], front[6], front[7],
    ]);
    Ok((number, rest))
}
