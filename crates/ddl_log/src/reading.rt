// A record from its bytes.
ghost use Rattle.std.specs.Prelude.{◌≡◌, true, false, Err, IfOk, MatchOption};
ghost use Rattle.std.specs.Int.{w16, w32};
ghost use Rattle.std.specs.Str.{is_utf8};
ghost use Rattle.std.specs.Option.{option_map};
ghost use Rattle.row_batch.specs.Reading.{number_at, string_at};
ghost use Rattle.ddl_log.specs.declared.records.LogRecord.{LogRecord as Item};
ghost use Rattle.ddl_log.specs.Records.{record_bytes, IsRecord};
ghost use Rattle.ddl_log.specs.Reading.{kind_at, head_at, path_at, may_have, record_at};

use crate::fault::LogFault;
use crate::records::{Kind, LogRecord};
use dd_names::{Text, both};
use std::alloc::{AllocError, Global};
use std::str;

/// What stands before the paths.
#[derive(Clone, Copy)]
struct Head {
    thread: u32,
    kind: Kind,
    space: u32,
}

/// The record with that id whose bytes these are, all of them.
pub fn decode(alloc: Global, id: u64, bytes: &[u8]) -> Result<LogRecord, LogFault>
    ensures found { IfOk result (λ item. IsRecord item × (item.id ≡ id) × (bytes.now ≡ record_bytes item)) }
    ensures only { (item : Item) → IsRecord item → item.id ≡ id → bytes.now ≡ record_bytes item → IfOk result (λ found. found ≡ item) }
    ensures malformed { result ≡ Err LogFault.Malformed → (item : Item) → IsRecord item → item.id ≡ id → bytes.now ≡ record_bytes item → ⊥ }
{
    let Some((head, old_path, new_path)) = parts_of(id, bytes) else {
        return Err(LogFault::Malformed);
    };
    match texts_of(alloc, old_path, new_path) {
        Ok((old_path, new_path)) => Ok(whole(id, head, old_path, new_path)),
        Err(_) => Err(LogFault::Memory),
    }
}

fn texts_of(alloc: Global, old_path: &str, new_path: &str) -> Result<(Text, Text), AllocError>
    ensures { IfOk result (λ texts. (texts.0 ≡ old_path.now) × (texts.1 ≡ new_path.now)) }
{
    both(Text::of(alloc, old_path), Text::of(alloc, new_path))
}

fn whole(id: u64, head: Head, old_path: Text, new_path: Text) -> LogRecord
    ensures { result ≡ record { id = id; thread = head.thread; kind = head.kind; space = head.space; old_path = old_path; new_path = new_path } }
{
    LogRecord {
        id,
        thread: head.thread,
        kind: head.kind,
        space: head.space,
        old_path,
        new_path,
    }
}

#[tactic(auto, unfolding(crate::specs::Reading::record_at))]
fn parts_of(id: u64, bytes: &[u8]) -> Option<(Head, &str, &str)>
    ensures { option_map (λ x. record { id = id; thread = x.0.thread; kind = x.0.kind; space = x.0.space; old_path = x.1.now; new_path = x.2.now }) result ≡ record_at id bytes.now }
{
    let (head, rest) = head_at(bytes)?;
    let (old_path, rest) = path_at(rest)?;
    let (new_path, rest) = path_at(rest)?;
    if rest.is_empty()
        && id / 4_294_967_296 == head.thread as u64
        && may_have(head.kind, new_path)
    {
        Some((head, old_path, new_path))
    } else {
        None
    }
}

/// Whether a record of this kind may have this new path.
fn may_have(kind: Kind, path: &str) -> bool
    ensures { result ≡ may_have kind path.now }
{
    match kind {
        Kind::RenameSpace => true,
        Kind::DeleteSpace | Kind::WriteSdi => path.is_empty(),
    }
}

#[tactic(auto, unfolding(crate::specs::Reading::head_at))]
fn head_at(bytes: &[u8]) -> Option<(Head, &[u8])>
    ensures { option_map (λ x. (x.0, x.1.now)) result ≡ head_at bytes.now }
{
    let (thread, rest) = u32_at(bytes)?;
    let (kind, rest) = kind_at(rest)?;
    let (space, rest) = u32_at(rest)?;
    let head = Head {
        thread,
        kind,
        space,
    };
    Some((head, rest))
}

#[tactic(auto, unfolding(crate::specs::Reading::kind_at))]
fn kind_at(bytes: &[u8]) -> Option<(Kind, &[u8])>
    ensures { option_map (λ x. (x.0, x.1.now)) result ≡ kind_at bytes.now }
{
    match bytes {
        [2, rest @ ..] => Some((Kind::DeleteSpace, rest)),
        [3, rest @ ..] => Some((Kind::RenameSpace, rest)),
        [100, rest @ ..] => Some((Kind::WriteSdi, rest)),
        _ => None,
    }
}

#[tactic(auto, unfolding(crate::specs::Reading::path_at))]
fn path_at(bytes: &[u8]) -> Option<(&str, &[u8])>
    ensures { option_map (λ x. (x.0.now, x.1.now)) result ≡ path_at bytes.now }
{
    let (path, rest) = string_at(bytes)?;
    let text = text_of(path)?;
    Some((text, rest))
}

/// The text, if the bytes are one.
fn text_of(bytes: &[u8]) -> Option<&str>
    ensures { MatchOption result (is_utf8 bytes.now ≡ false) (λ text. (text.now ≡ bytes.now) × (is_utf8 bytes.now ≡ true)) }
{
    match str::from_utf8(bytes) {
        Ok(text) => Some(text),
        Err(_) => None,
    }
}

#[tactic(auto, unfolding(row_batch::specs::Reading::string_at))]
fn string_at(bytes: &[u8]) -> Option<(&[u8], &[u8])>
    ensures { option_map (λ x. (x.0.now, x.1.now)) result ≡ string_at w16 bytes.now }
{
    let (len, rest) = u16_at(bytes)?;
    let len = len as usize;
    if rest.len() < len {
        return None;
    }
    Some(rest.split_at(len))
}

fn u16_at(bytes: &[u8]) -> Option<(u16, &[u8])>
    ensures { option_map (λ x. (x.0, x.1.now)) result ≡ number_at w16 bytes.now }
{
    if bytes.len() < 2 {
        return None;
    }
    let (front, rest) = bytes.split_at(2);
    Some((u16::from_be_bytes([front[0], front[1]]), rest))
}

fn u32_at(bytes: &[u8]) -> Option<(u32, &[u8])>
    ensures { option_map (λ x. (x.0, x.1.now)) result ≡ number_at w32 bytes.now }
{
    if bytes.len() < 4 {
        return None;
    }
    let (front, rest) = bytes.split_at(4);
    let number = u32::from_be_bytes([front[0], front[1], front[2], front[3]]);
    Some((number, rest))
}
