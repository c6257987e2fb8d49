//! Actions of ALTER TABLE.
use crate::faults::push_fault;
use sql_ast::{AlterAction, Place};
use sql_lex::{tokens, tokens_before};
use sql_parse_alter::{action_words, actions};
use sql_read::Input;
use std::alloc::{AllocError, Global};

/// How many actions there are from the third token on, or why there are none.
pub fn push_actions(alloc: Global, text: &str, out: &mut String) -> Result<(), AllocError> {
    let Ok(tokens) = tokens(alloc, text) else {
        return out.push_str(" no tokens");
    };
    if tokens.len() < 2 {
        return out.push_str(" too few tokens");
    }
    match actions(alloc, tokens.as_slice(), text, 2) {
        Ok(list) => write!(out, " {} actions", list.len()),
        Err(fault) => push_fault(&fault, out),
    }
}

fn place_shown(place: &Option<Place>) -> &str {
    match place {
        None => "",
        Some(Place::First) => "FIRST",
        Some(Place::After(name)) => name.as_str(),
    }
}

// What an action does, and a name or place in it.
fn shown(action: &AlterAction) -> (&str, &str) {
    match action {
        AlterAction::AddColumn { place, .. } => ("add", place_shown(place)),
        AlterAction::AddColumns { .. } => ("add columns", ""),
        AlterAction::AddKey(_) => ("add key", ""),
        AlterAction::AddForeignKey(key) => ("add foreign key", key.parent.name.as_str()),
        AlterAction::DropColumn { name } => ("drop", name.as_str()),
        AlterAction::ModifyColumn { place, .. } => ("modify", place_shown(place)),
        AlterAction::ChangeColumn { name, .. } => ("change", name.as_str()),
        AlterAction::RenameColumn { to, .. } => ("rename", to.as_str()),
        AlterAction::SetDefault { name, .. } => ("set default", name.as_str()),
        AlterAction::DropDefault { name } => ("drop default", name.as_str()),
        AlterAction::DropIndex { name } => ("drop index", name.as_str()),
        AlterAction::DropPrimaryKey => ("drop primary key", ""),
        AlterAction::DropForeignKey { name } => ("drop foreign key", name.as_str()),
        AlterAction::RenameIndex { to, .. } => ("rename index", to.as_str()),
        AlterAction::RenameTable { to } => ("rename table", to.name.as_str()),
        AlterAction::Force => ("force", ""),
        AlterAction::Engine => ("engine", ""),
    }
}

/// What an action does, and a name or place in it.
pub fn push_action(alloc: Global, text: &str, out: &mut String) -> Result<(), AllocError> {
    let lexed = tokens_before(alloc, text)?;
    match action_words(alloc, Input::of(text, &lexed)) {
        Ok((action, _)) => push_shown(shown(&action), out),
        Err(_) => out.push_str(" none"),
    }
}

fn push_shown(shown: (&str, &str), out: &mut String) -> Result<(), AllocError> {
    let (kind, name) = shown;
    if name.is_empty() {
        return write!(out, " {kind}");
    }
    write!(out, " {kind}: {name}")
}
