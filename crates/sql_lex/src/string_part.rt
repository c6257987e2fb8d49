ghost use Rattle.std.specs.Prelude.{◌≡◌, ◌≤◌, length, IfOk, drop, MatchOption, bytes_eq, None, Some};
ghost use Rattle.sql_lex.specs.Strings.{escaped, keeps_backslash, strip_of, strip_two_of, part, behind_backslash, meant, string_meaning};

use dd_names::List;
use std::alloc::{AllocError, Global};

/// What the front of a string is, behind its opening quote.
#[derive(Clone, Copy)]
pub enum Part {
    /// The closing quote.
    Closes,
    /// So many bytes that mean one.
    One(u8, usize),
    /// A backslash and a byte that mean both.
    Two(u8),
}

/// What stands from a place on.
pub fn from_place(bytes: &[u8], at: usize) -> &[u8]
    requires { at ≤ length bytes.now }
    ensures { result.now ≡ drop at bytes.now }
{
    bytes.split_at(at).1
}

fn escaped(c: u8) -> u8
    ensures { result ≡ escaped c }
{
    match c {
        b'0' => 0,
        b'b' => 8,
        b'n' => b'\n',
        b'r' => b'\r',
        b't' => b'\t',
        b'Z' => 26,
        _ => c,
    }
}

fn behind_backslash(c: u8) -> Part
    ensures { result ≡ behind_backslash c }
{
    if c == b'%' || c == b'_' {
        Part::Two(c)
    } else {
        Part::One(escaped(c), 2)
    }
}

/// The part at the front.
pub fn part_at(quote: u8, bytes: &[u8]) -> Part
    ensures { result ≡ part quote bytes.now }
{
    match bytes {
        [] => Part::One(0, 1),
        [b] => {
            if *b == quote {
                Part::Closes
            } else {
                Part::One(*b, 1)
            }
        }
        [b, c, ..] => {
            if *b == b'\\' {
                return behind_backslash(*c);
            }
            if *b == quote {
                if *c == quote {
                    return Part::One(quote, 2);
                }
                return Part::Closes;
            }
            Part::One(*b, 1)
        }
    }
}

/// What the bytes behind an opening quote mean.
fn meaning_behind(alloc: Global, quote: u8, bytes: &[u8]) -> Result<Vec<u8>, AllocError>
    ensures { IfOk result (λ value. value.items ≡ meant quote bytes.now 0) }
{
    let mut value = Vec::new(alloc);
    let mut at: usize = 0;
    'parts: while at < bytes.len() {
        match part_at(quote, from_place(bytes, at)) {
            Part::Closes => return Ok(value),
            Part::One(c, n) => {
                value.push(c)?;
                at += n;
            }
            Part::Two(c) => {
                value.push(b'\\')?;
                value.push(c)?;
                at += 2;
            }
        }
    }
    Ok(value)
}

/// The bytes that a string means, which is given with its quotes.
pub fn meaning(alloc: Global, string: &[u8]) -> Result<List<u8>, AllocError>
    ensures { IfOk result (λ value. value ≡ string_meaning string.now) }
{
    match string {
        [quote, rest @ ..] => Ok(List::from_vec(meaning_behind(alloc, *quote, rest)?)),
        [] => Ok(List::new(alloc)),
    }
}

fn strip(c: u8, bytes: &[u8]) -> Option<&[u8]>
    ensures { MatchOption result (strip_of c bytes.now ≡ None) (λ rest. strip_of c bytes.now ≡ Some rest.now) }
{
    match bytes {
        [] => None,
        [d, rest @ ..] => { if c == *d { Some(rest) } else { None } }
    }
}

/// Behind a backslash and a byte.
fn strip_two(c: u8, bytes: &[u8]) -> Option<&[u8]>
    ensures { MatchOption result (strip_two_of c bytes.now ≡ None) (λ rest. strip_two_of c bytes.now ≡ Some rest.now) }
{
    match bytes {
        [a, b, rest @ ..] => {
            if *a == b'\\' && c == *b {
                Some(rest)
            } else {
                None
            }
        }
        _ => None,
    }
}

/// Whether the bytes behind an opening quote mean these.
fn means_behind(quote: u8, bytes: &[u8], wanted: &[u8]) -> bool
    ensures { result ≡ bytes_eq (meant quote bytes.now 0) wanted.now }
{
    let mut at: usize = 0;
    let mut rest = wanted;
    'parts: while at < bytes.len() {
        match part_at(quote, from_place(bytes, at)) {
            Part::Closes => return rest.is_empty(),
            Part::One(c, n) => match strip(c, rest) {
                Some(after) => {
                    rest = after;
                    at += n;
                }
                None => return false,
            },
            Part::Two(c) => match strip_two(c, rest) {
                Some(after) => {
                    rest = after;
                    at += 2;
                }
                None => return false,
            },
        }
    }
    rest.is_empty()
}

/// Whether a string, which is given with its quotes, means these bytes. It takes no memory.
pub fn means(string: &[u8], bytes: &[u8]) -> bool
    ensures { result ≡ bytes_eq (string_meaning string.now) bytes.now }
{
    match string {
        [quote, rest @ ..] => means_behind(*quote, rest, bytes),
        [] => bytes.is_empty(),
    }
}
