//! Statements as values, and how a text reads as a statement.
#![tactic(auto)]

mod action;
mod element;
mod schema;
mod session;
mod show;
mod statement;
mod table;
mod view;

pub use action::{AlterAction, Place};
pub use element::Element;
pub use schema::SchemaStatement;
pub use session::{SessionState, SessionStatement};
pub use show::{ShowStatement, ShownCreation};
pub use statement::Statement;
pub use table::{CreateTable, IndexStatement, RenamePair, TableBody, TableStatement};
pub use view::{Item, Select, SelectSource, ViewStatement};
