//! The bytes that a case writes, and bytes as a case writes them.
use std::alloc::{AllocError, Global};

/// The bytes of a case. `{N}` is the byte of that number, `{N*PIECE}` a piece so many times, and `{}` nothing.
pub fn bytes_of(alloc: Global, case: &str) -> Result<Vec<u8>, AllocError> {
    let mut bytes = Vec::new(alloc);
    'parts: for part in case.split('{') {
        push_part(&mut bytes, part)?;
    }
    Ok(bytes)
}

// A part that begins behind a brace, or the first part of all.
fn push_part(bytes: &mut Vec<u8>, part: &str) -> Result<(), AllocError> {
    match part.split_once('}') {
        None => bytes.extend_from_slice(part.as_bytes()),
        Some((inside, behind)) => {
            push_inside(bytes, inside)?;
            bytes.extend_from_slice(behind.as_bytes())
        }
    }
}

fn push_inside(bytes: &mut Vec<u8>, inside: &str) -> Result<(), AllocError> {
    match inside.split_once('*') {
        None => push_byte(bytes, inside),
        Some((times, piece)) => push_times(bytes, number_of(times), piece.as_bytes()),
    }
}

fn push_byte(bytes: &mut Vec<u8>, digits: &str) -> Result<(), AllocError> {
    match digits.parse::<u8>() {
        Ok(byte) => Ok(bytes.push(byte)?),
        Err(_) => Ok(()),
    }
}

fn push_times(bytes: &mut Vec<u8>, times: usize, piece: &[u8]) -> Result<(), AllocError> {
    'times: for _ in 0..times {
        bytes.extend_from_slice(piece)?;
    }
    Ok(())
}

/// The number that digits write, or 0.
pub fn number_of(digits: &str) -> usize {
    digits.parse::<usize>().unwrap_or(0)
}

/// Bytes as a case writes them.
pub fn push_bytes(bytes: &[u8], out: &mut String) -> Result<(), AllocError> {
    if bytes.is_empty() {
        return out.push_str("{}");
    }
    'bytes: for byte in bytes {
        push_shown(*byte, out)?;
    }
    Ok(())
}

fn push_shown(byte: u8, out: &mut String) -> Result<(), AllocError> {
    if byte.is_ascii_graphic() || byte == b' ' {
        return out.push(char::from(byte));
    }
    write!(out, "{{{byte}}}")
}
