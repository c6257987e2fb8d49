//! Faults of parsers.
use sql_parse_parts::ParseFault;
use std::alloc::AllocError;

/// The byte of a fault, or the name that is too long.
pub fn push_fault(fault: &ParseFault, out: &mut String) -> Result<(), AllocError> {
    match fault {
        ParseFault::Syntax { at } => write!(out, " fault at {at}"),
        ParseFault::TooLong { name } => push_named(name.as_str(), out),
        ParseFault::Memory => Err(AllocError),
    }
}

fn push_named(name: &str, out: &mut String) -> Result<(), AllocError> {
    write!(out, " too long: {name}")
}
