//! Reading one token of a text, or a rule again and again, for parsers with one function a rule.
#![tactic(auto)]

mod content;
mod fault;
mod input;
mod next;
mod number;
mod reading;
mod rule;

pub use fault::ReadFault;
pub use input::Input;
pub use next::name_text;
pub use number::number_of;
pub use reading::{
    at_name, at_number, at_sign, at_string, at_word, digits, exactly, name, sign, skip_word,
    string, width, word,
};
pub use rule::{Item, Rule, listed, many};
