ghost use Rattle.std.specs.Prelude.{◌≡◌, ◌≤◌, ◌<◌, ◌^◌, length, IfSome};
ghost use Rattle.sql_lex.specs.Ends.{step, reach};
ghost use Rattle.sql_lex.specs.declared.reach.Until.TheVariants.{CommentEnd, BackQuote, Quote};

use crate::string_part::{Part, from_place, part_at};

/// What ends a comment, a quoted name or a string.
#[derive(Clone, Copy)]
pub enum Until {
    CommentEnd,
    BackQuote,
    Quote(u8),
}

/// Whether it ends here, with so many bytes, or goes on by so many.
#[derive(Clone, Copy)]
pub enum Step {
    Ends(usize),
    Goes(usize),
}

fn comment_step(bytes: &[u8]) -> Step
    ensures { result ≡ step CommentEnd bytes.now }
{
    match bytes {
        [a, b, ..] => {
            if *a == b'*' && *b == b'/' {
                Step::Ends(2)
            } else {
                Step::Goes(1)
            }
        }
        _ => Step::Goes(1),
    }
}

fn quote_step(quote: u8, bytes: &[u8]) -> Step
    ensures { result ≡ step (Quote quote) bytes.now }
{
    match part_at(quote, bytes) {
        Part::Closes => Step::Ends(1),
        Part::One(_, n) => Step::Goes(n),
        Part::Two(_) => Step::Goes(2),
    }
}

fn back_quote_step(bytes: &[u8]) -> Step
    ensures { result ≡ step BackQuote bytes.now }
{
    match bytes {
        [] => Step::Goes(1),
        [b, ..] => {
            if *b == b'`' {
                Step::Ends(1)
            } else {
                Step::Goes(1)
            }
        }
    }
}

fn step_of(until: Until, bytes: &[u8]) -> Step
    ensures { result ≡ step until bytes.now }
{
    match until {
        Until::CommentEnd => comment_step(bytes),
        Until::BackQuote => back_quote_step(bytes),
        Until::Quote(quote) => quote_step(quote, bytes),
    }
}

/// How many bytes there are up to the end, with it.
pub fn reach_len(until: Until, bytes: &[u8]) -> Option<usize>
    requires { length bytes.now < 2 ^ 63 }
    ensures value { result ≡ reach until bytes.now 0 }
    ensures bound { IfSome result (λ n. n ≤ length bytes.now) }
{
    let mut at: usize = 0;
    'steps: while at < bytes.len() {
        match step_of(until, from_place(bytes, at)) {
            Step::Ends(n) => return Some(at + n),
            Step::Goes(n) => at += n,
        }
    }
    None
}
