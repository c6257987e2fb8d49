// The loop that cuts an input into its items.
ghost use Rattle.std.specs.Prelude.{◌≡◌, ◌∷◌, [], All, IfOk, MatchOption};
ghost use Rattle.script_cut.specs.Items.{items_of, last_items, IsItemOf};
ghost use Rattle.script_cut.specs.Places.{is_inside};

use crate::item::Item;
use crate::moves::{Move, State, move_at};
use sql_lex::piece_at;
use std::alloc::{AllocError, Global};

/// Whether a version comment is open.
fn is_inside(state: State) -> bool
    ensures { result ≡ is_inside state }
{
    match state {
        State::Within { from: _, inside } => inside,
        _ => false,
    }
}

/// The item that the input's end ends, if there is one.
fn last_item(state: State) -> Option<Item>
    ensures { MatchOption result (last_items state ≡ []) (λ item. last_items state ≡ item ∷ []) }
{
    match state {
        State::Between => None,
        State::Within { from, inside: _ } => Some(Item::CutStatement { from }),
        State::Session { line } => Some(Item::BadLine { line }),
        State::Named { line, from, to } => Some(Item::SessionLine { line, from, to }),
    }
}

/// The session lines and the statements of an input, up to the first that isn't of its form.
pub fn items(alloc: Global, text: &str) -> Result<Vec<Item>, AllocError>
    ensures exact { IfOk result (λ items. items.items ≡ items_of text.now) }
    ensures places { IfOk result (λ items. All (IsItemOf text.now) items.items) }
{
    let bytes = text.as_bytes();
    let mut items = Vec::new(alloc);
    let mut state = State::Between;
    let mut at = 0;
    'pieces: while at < bytes.len() {
        let piece = piece_at(is_inside(state), bytes, at);
        match move_at(bytes, state, at, piece) {
            Move::Goes(next) => {
                state = next;
                at += piece.len;
            }
            Move::Makes(item) => {
                items.push(item)?;
                state = State::Between;
                at += piece.len;
            }
            Move::Ends(item) => {
                items.push(item)?;
                return Ok(items);
            }
        }
    }
    if let Some(item) = last_item(state) {
        items.push(item)?;
    }
    Ok(items)
}
