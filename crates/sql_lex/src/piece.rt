ghost use Rattle.std.specs.Prelude.{◌≡◌, ◌+◌, ◌^◌, ◌<◌, ◌≤◌, length, take_while, take, drop, IfSome, ◌==◌, ◌&&◌};
ghost use Rattle.std.specs.List.{list_all};
ghost use Rattle.std.specs.Char.{is_ascii_digit};
ghost use Rattle.dd_names.specs.Names.{is_name_byte};
ghost use Rattle.sql_lex.specs.Bytes.{is_blank, is_sign, is_inside_line};
ghost use Rattle.sql_lex.specs.Ends.{starts_with_2, starts_with_3};
ghost use Rattle.sql_lex.specs.Pieces.{run, word_piece, quoted_piece, quoted_shape, string_piece, comment_piece, opening_piece, slash_piece, star_piece, line_piece, is_dash_comment, ended, stray_piece, front_of, after};

use crate::reach::{Until, reach_len};
use crate::string_part::from_place;
use crate::token::TokenKind;

/// What a piece of a text is.
#[derive(Clone, Copy)]
pub enum Shape {
    Blank,
    Comment,
    /// `/*!` with its digits.
    Opening,
    /// The `*/` of a version comment.
    Closing,
    Lexeme(TokenKind),
    /// No token begins here.
    Stray,
    /// A comment, a quoted name or a string that the text's end cuts.
    Unended,
}

/// A piece of a text, and how many bytes it has.
#[derive(Clone, Copy)]
pub struct Piece {
    pub shape: Shape,
    pub len: usize,
}

fn is_blank(b: u8) -> bool
    ensures { result ≡ is_blank b }
{
    matches!(b, b' ' | b'\t' | b'\n' | b'\r')
}

/// Whether a name without quotes may have this byte.
pub fn is_name_byte(b: u8) -> bool
    ensures { result ≡ is_name_byte b }
{
    b.is_ascii_alphanumeric() || b == b'_'
}

fn is_sign(b: u8) -> bool
    ensures { result ≡ is_sign b }
{
    matches!(
        b,
        b'(' | b')' | b',' | b'.' | b';' | b'=' | b'*' | b'+' | b'-' | b'@'
    )
}

/// Whether all bytes are decimal digits.
pub fn are_digits(bytes: &[u8]) -> bool
    ensures { result ≡ list_all is_ascii_digit bytes.now }
{
    bytes.iter().all(|b| b.is_ascii_digit())
}

#[tactic(auto, unfolding(crate::specs::Pieces::run))]
fn run_len(bytes: &[u8]) -> usize
    ensures len { result ≡ length (run bytes.now) }
    ensures bound { result ≤ length bytes.now }
{
    bytes.iter().take_while(|b| is_name_byte(**b)).count()
}

/// The longest run of letters, digits and `_`.
#[tactic(auto, using(crate::proofs::Runs::run_again))]
fn run_of(bytes: &[u8]) -> &[u8]
    ensures run { result.now ≡ run bytes.now }
    ensures bound { length result.now ≤ length bytes.now }
{
    let n = run_len(bytes);
    &bytes[..n]
}

fn line_len(bytes: &[u8]) -> usize
    ensures { result ≡ length (take_while is_inside_line bytes.now) }
{
    bytes.iter().take_while(|b| **b != b'\n').count()
}

/// A word or a number.
#[tactic(auto, unfolding(crate::specs::Pieces::word_piece))]
fn word_at(bytes: &[u8]) -> Piece
    ensures { result ≡ word_piece bytes.now }
{
    let word = run_of(bytes);
    let kind = if are_digits(word) {
        TokenKind::Number
    } else {
        TokenKind::Word
    };
    Piece {
        shape: Shape::Lexeme(kind),
        len: word.len(),
    }
}

/// A comment to the end of the line.
#[tactic(auto, unfolding(crate::specs::Pieces::line_piece))]
fn line_at(bytes: &[u8]) -> Piece
    ensures { result ≡ line_piece bytes.now }
{
    Piece {
        shape: Shape::Comment,
        len: line_len(bytes),
    }
}

fn starts_two(bytes: &[u8], x: u8, y: u8) -> bool
    ensures { result ≡ starts_with_2 x y bytes.now }
{
    match bytes {
        [a, b, ..] => *a == x && *b == y,
        _ => false,
    }
}

fn starts_three(bytes: &[u8], x: u8, y: u8, z: u8) -> bool
    ensures { result ≡ starts_with_3 x y z bytes.now }
{
    match bytes {
        [a, b, c, ..] => *a == x && *b == y && *c == z,
        _ => false,
    }
}

/// Two dashes, and then a blank or the end.
fn is_dash_comment(bytes: &[u8]) -> bool
    ensures { result ≡ is_dash_comment bytes.now }
{
    match bytes {
        [a, b] => *a == b'-' && *b == b'-',
        [a, b, c, ..] => *a == b'-' && *b == b'-' && is_blank(*c),
        _ => false,
    }
}

/// What goes up to an end, `opening` bytes before `bytes` with them.
fn ended_at(shape: Shape, opening: usize, bytes: &[u8], end: Option<usize>) -> Piece
    requires small { length bytes.now < 2 ^ 63 }
    requires opening { opening ≤ 2 }
    requires end { IfSome end (λ n. n ≤ length bytes.now) }
    ensures { result ≡ ended shape opening (length bytes.now) end }
{
    match end {
        Some(n) => Piece {
            shape,
            len: opening + n,
        },
        None => Piece {
            shape: Shape::Unended,
            len: opening + bytes.len(),
        },
    }
}

#[tactic(auto, unfolding(crate::specs::Pieces::quoted_shape))]
fn quoted_shape_of(bytes: &[u8], end: Option<usize>) -> Shape
    requires { length bytes.now < 2 ^ 63 }
    ensures { result ≡ quoted_shape bytes.now end }
{
    let n = run_len(bytes);
    match end {
        Some(end) => {
            if n > 0 && end == n + 1 {
                Shape::Lexeme(TokenKind::Quoted)
            } else {
                Shape::Stray
            }
        }
        None => Shape::Stray,
    }
}

/// A quoted name, behind its back quote.
#[tactic(auto, unfolding(crate::specs::Pieces::quoted_piece))]
fn quoted_at(bytes: &[u8]) -> Piece
    requires { length bytes.now < 2 ^ 63 }
    ensures { result ≡ quoted_piece bytes.now }
{
    let end = reach_len(Until::BackQuote, bytes);
    ended_at(quoted_shape_of(bytes, end), 1, bytes, end)
}

/// A string, behind its quote.
#[tactic(auto, unfolding(crate::specs::Pieces::string_piece))]
fn string_at(quote: u8, bytes: &[u8]) -> Piece
    requires { length bytes.now < 2 ^ 63 }
    ensures { result ≡ string_piece quote bytes.now }
{
    let end = reach_len(Until::Quote(quote), bytes);
    ended_at(Shape::Lexeme(TokenKind::Str), 1, bytes, end)
}

/// A comment, behind its slash and star.
#[tactic(auto, unfolding(crate::specs::Pieces::comment_piece))]
fn comment_at(bytes: &[u8]) -> Piece
    requires { length bytes.now < 2 ^ 63 }
    ensures { result ≡ comment_piece bytes.now }
{
    let end = reach_len(Until::CommentEnd, bytes);
    ended_at(Shape::Comment, 2, bytes, end)
}

fn five_digits(bytes: &[u8]) -> bool
    ensures { result ≡ (length (take 5 bytes.now) == 5 && list_all is_ascii_digit (take 5 bytes.now)) }
{
    bytes.len() >= 5 && are_digits(&bytes[..5])
}

/// The opening of a version comment, behind its `/*!`.
#[tactic(auto, unfolding(crate::specs::Pieces::opening_piece))]
fn opening_at(bytes: &[u8]) -> Piece
    ensures { result ≡ opening_piece bytes.now }
{
    Piece {
        shape: Shape::Opening,
        len: if five_digits(bytes) { 8 } else { 3 },
    }
}

fn stray() -> Piece
    ensures { result ≡ stray_piece }
{
    Piece {
        shape: Shape::Stray,
        len: 1,
    }
}

#[tactic(auto, unfolding(crate::specs::Pieces::slash_piece), using(crate::proofs::Fronts::three_there, crate::proofs::Fronts::two_there))]
fn slash_at(inside: bool, bytes: &[u8]) -> Piece
    requires { length bytes.now < 2 ^ 63 }
    ensures { result ≡ slash_piece inside bytes.now }
{
    if starts_three(bytes, b'/', b'*', b'!') {
        if inside {
            return stray();
        }
        return opening_at(from_place(bytes, 3));
    }
    if starts_two(bytes, b'/', b'*') {
        return comment_at(from_place(bytes, 2));
    }
    stray()
}

#[tactic(auto, unfolding(crate::specs::Pieces::star_piece))]
fn star_at(inside: bool, bytes: &[u8]) -> Piece
    ensures { result ≡ star_piece inside bytes.now }
{
    if inside && starts_two(bytes, b'*', b'/') {
        Piece {
            shape: Shape::Closing,
            len: 2,
        }
    } else {
        Piece {
            shape: Shape::Lexeme(TokenKind::Sign),
            len: 1,
        }
    }
}

/// What stands at the front.
#[tactic(auto, unfolding(crate::specs::Pieces::front))]
fn front_at(inside: bool, bytes: &[u8]) -> Piece
    requires small { length bytes.now < 2 ^ 63 }
    ensures { result ≡ front_of inside bytes.now }
{
    let [b, rest @ ..] = bytes else {
        return stray();
    };
    let b = *b;
    if is_blank(b) {
        return Piece {
            shape: Shape::Blank,
            len: 1,
        };
    }
    if b == b'#' || is_dash_comment(bytes) {
        return line_at(bytes);
    }
    if b == b'/' {
        return slash_at(inside, bytes);
    }
    if b == b'*' {
        return star_at(inside, bytes);
    }
    if is_name_byte(b) {
        return word_at(bytes);
    }
    if b == b'`' {
        return quoted_at(rest);
    }
    if b == b'\'' || b == b'"' {
        return string_at(b, rest);
    }
    if is_sign(b) {
        return Piece {
            shape: Shape::Lexeme(TokenKind::Sign),
            len: 1,
        };
    }
    stray()
}

/// Whether what follows a piece is in a version comment.
pub fn inside_after(inside: bool, shape: Shape) -> bool
    ensures { result ≡ after inside shape }
{
    match shape {
        Shape::Opening => true,
        Shape::Closing => false,
        _ => inside,
    }
}

/// What stands at a place of a text.
#[tactic(auto, using(crate::proofs::Places::place_within))]
pub fn piece_at(inside: bool, text: &[u8], at: usize) -> Piece
    requires small { length text.now < 2 ^ 63 }
    requires place { at < length text.now }
    ensures piece { result ≡ front_of inside (drop at text.now) }
    ensures some { 0 < result.len }
    ensures within { at + result.len ≤ length text.now }
{
    front_at(inside, from_place(text, at))
}
