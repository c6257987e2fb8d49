//! The lines of the input: what is asked from there on, cases, and empty lines.
use crate::questions::push_answer;
use std::alloc::{AllocError, Global};

/// All lines, and behind each case its answer.
pub fn answer_cases(alloc: Global, input: &str) -> Result<String, AllocError> {
    let mut out = String::new(alloc);
    let mut question = "";
    'lines: for line in input.split('\n') {
        question = question_behind(question, line);
        push_line(alloc, question, line, &mut out)?;
    }
    Ok(out)
}

// The question that a line sets, which is its first word, or the one before it.
fn question_behind<'a>(before: &'a str, line: &'a str) -> &'a str {
    match line.strip_prefix('.') {
        None => before,
        Some(words) => words.split_once(' ').unwrap_or((words, "")).0,
    }
}

fn push_line(
    alloc: Global,
    question: &str,
    line: &str,
    out: &mut String,
) -> Result<(), AllocError> {
    out.push_str(line)?;
    if !line.is_empty() && !line.starts_with('.') {
        out.push_str(" ->")?;
        push_answer(alloc, question, line, out)?;
    }
    out.push_str("\n")
}
