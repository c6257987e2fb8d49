// What each piece of an input does, by where we are in it.
ghost use Rattle.std.specs.Prelude.{◌≡◌, ◌+◌, ◌≤◌, ◌<◌, length, drop};
ghost use Rattle.script_cut.specs.declared.moves.State.TheVariants.{Between, Session, Named, Within};
ghost use Rattle.script_cut.specs.Moves.{is_blank, is_passed, is_word, is_sign, is_unended, is_semicolon, is_cut_comment, begins_line, is_line_name, is_line_feed, between, within, behind_session, behind_name, move_of};

use crate::item::Item;
use crate::name::{is_plain_name, is_session};
use sql_lex::{Piece, Shape, TokenKind, inside_after};

/// Where we are in an input.
#[derive(Clone, Copy)]
pub enum State {
    /// Outside statements and session lines.
    Between,
    /// In a statement from its first byte, and whether a version comment is open.
    Within { from: usize, inside: bool },
    /// Behind the word `session`, which begins at `line`.
    Session { line: usize },
    /// Behind the name of a session line.
    Named { line: usize, from: usize, to: usize },
}

/// What a piece does.
#[derive(Clone, Copy)]
pub enum Move {
    /// We go on from here.
    Goes(State),
    /// It ends an item, and we go on outside.
    Makes(Item),
    /// It ends the last item that is read.
    Ends(Item),
}

fn is_blank(shape: Shape) -> bool
    ensures { result ≡ is_blank shape }
{
    matches!(shape, Shape::Blank)
}

fn is_passed(shape: Shape) -> bool
    ensures { result ≡ is_passed shape }
{
    matches!(shape, Shape::Blank | Shape::Comment)
}

fn is_unended(shape: Shape) -> bool
    ensures { result ≡ is_unended shape }
{
    matches!(shape, Shape::Unended)
}

fn is_word(shape: Shape) -> bool
    ensures { result ≡ is_word shape }
{
    match shape {
        Shape::Lexeme(kind) => matches!(kind, TokenKind::Word),
        _ => false,
    }
}

fn is_sign(shape: Shape) -> bool
    ensures { result ≡ is_sign shape }
{
    match shape {
        Shape::Lexeme(kind) => matches!(kind, TokenKind::Sign),
        _ => false,
    }
}

#[tactic(auto, unfolding(crate::specs::Moves::is_semicolon))]
fn is_semicolon(text: &[u8], at: usize, shape: Shape) -> bool
    requires { at < length text.now }
    ensures { result ≡ is_semicolon text.now at shape }
{
    is_sign(shape) && text[at] == b';'
}

#[tactic(auto, unfolding(crate::specs::Moves::is_cut_comment))]
fn is_cut_comment(text: &[u8], at: usize, shape: Shape) -> bool
    requires { at < length text.now }
    ensures { result ≡ is_cut_comment text.now at shape }
{
    is_unended(shape) && text[at] == b'/'
}

fn is_line_feed(text: &[u8], at: usize) -> bool
    requires { at < length text.now }
    ensures { result ≡ is_line_feed text.now at }
{
    text[at] == b'\n'
}

#[tactic(auto, unfolding(crate::specs::Moves::begins_line))]
fn begins_line(text: &[u8], at: usize, piece: Piece) -> bool
    requires { at + piece.len ≤ length text.now }
    ensures { result ≡ begins_line text.now at piece }
{
    is_word(piece.shape) && is_session(&text[at..at + piece.len])
}

#[tactic(auto, unfolding(crate::specs::Moves::is_line_name))]
fn is_line_name(text: &[u8], at: usize, piece: Piece) -> bool
    requires { at + piece.len ≤ length text.now }
    ensures { result ≡ is_line_name text.now at piece }
{
    is_word(piece.shape) && is_plain_name(&text[at..at + piece.len])
}

#[tactic(auto, unfolding(crate::specs::Moves::between))]
fn between(text: &[u8], at: usize, piece: Piece) -> Move
    requires place { at < length text.now }
    requires within { at + piece.len ≤ length text.now }
    ensures { result ≡ between text.now at piece }
{
    if is_passed(piece.shape) || is_semicolon(text, at, piece.shape) {
        return Move::Goes(State::Between);
    }
    if is_cut_comment(text, at, piece.shape) {
        return Move::Ends(Item::CutComment { at });
    }
    if begins_line(text, at, piece) {
        return Move::Goes(State::Session { line: at });
    }
    Move::Goes(State::Within {
        from: at,
        inside: inside_after(false, piece.shape),
    })
}

#[tactic(auto, unfolding(crate::specs::Moves::within))]
fn within(text: &[u8], from: usize, inside: bool, at: usize, piece: Piece) -> Move
    requires { at < length text.now }
    ensures { result ≡ within text.now from inside at piece }
{
    if !inside && is_semicolon(text, at, piece.shape) {
        return Move::Makes(Item::Statement { from, to: at });
    }
    Move::Goes(State::Within {
        from,
        inside: inside_after(inside, piece.shape),
    })
}

#[tactic(auto, unfolding(crate::specs::Moves::behind_session))]
fn behind_session(text: &[u8], line: usize, at: usize, piece: Piece) -> Move
    requires place { at < length text.now }
    requires within { at + piece.len ≤ length text.now }
    ensures { result ≡ behind_session text.now line at piece }
{
    if is_blank(piece.shape) && !is_line_feed(text, at) {
        return Move::Goes(State::Session { line });
    }
    if is_line_name(text, at, piece) {
        return Move::Goes(State::Named {
            line,
            from: at,
            to: at + piece.len,
        });
    }
    Move::Ends(Item::BadLine { line })
}

#[tactic(auto, unfolding(crate::specs::Moves::behind_name))]
fn behind_name(text: &[u8], line: usize, from: usize, to: usize, at: usize, piece: Piece) -> Move
    requires { at < length text.now }
    ensures { result ≡ behind_name text.now line from to at piece }
{
    if !is_blank(piece.shape) {
        return Move::Ends(Item::BadLine { line });
    }
    if is_line_feed(text, at) {
        return Move::Makes(Item::SessionLine { line, from, to });
    }
    Move::Goes(State::Named { line, from, to })
}

/// What the piece at a place does.
pub fn move_at(text: &[u8], state: State, at: usize, piece: Piece) -> Move
    requires place { at < length text.now }
    requires within { at + piece.len ≤ length text.now }
    ensures { result ≡ move_of text.now state at piece }
{
    match state {
        State::Between => between(text, at, piece),
        State::Within { from, inside } => within(text, from, inside, at, piece),
        State::Session { line } => behind_session(text, line, at, piece),
        State::Named { line, from, to } => behind_name(text, line, from, to, at, piece),
    }
}
