ghost use Rattle.std.specs.Prelude.{◌≡◌, ◌==◌, ◌++◌, ℕ, List, IfOk, OnOk, Some, IsTrue, is_some, option_map};
ghost use Rattle.std.specs.List.{find, before_first, after_first};
ghost use Rattle.dd_errors.specs.Table.{error_form};
ghost use Rattle.dd_errors.specs.Errors.{IsInTable, error_state, error_text, filled, form_of, form_from_1007, form_from_1064, form_from_1113, form_from_1701};

use crate::table::{ErrorRow, FROM_1007, FROM_1064, FROM_1113, FROM_1701};
use dd_names::{List, Text, TryCopy};
use std::alloc::{AllocError, Global};
use std::marker::Model;

/// A refusal of a statement: the number of an error that the table has, with the arguments of its text in order.
#[derive(Drop)]
pub struct SqlError {
    number: u16,
    args: List<Text>,
}

impl Model for SqlError {
    ghost use Rattle.dd_errors.specs.Errors.{ErrorValue, IsInTable};

    ghost Value = { ErrorValue };

    ghost view = { λ e. record { number = e.number; args = e.args } };

    ghost invariant = { λ e. IsInTable e.number e.args };
}

impl SqlError {
    /// The error with this number and these arguments.
    pub fn of(number: u16, args: List<Text>) -> SqlError
        requires { IsInTable number args }
        ensures { result ≡ record { number = number; args = args } }
    {
        SqlError { number, args }
    }

    /// The number by which clients know the error.
    pub fn number(&self) -> u16
        ensures { result ≡ self.now.number }
    {
        self.number
    }

    /// The arguments of the text in order.
    pub fn args(&self) -> &[Text]
        ensures { result.now ≡ self.now.args }
    {
        self.args.as_slice()
    }

    /// The SQLSTATE: five characters that tell the class of the error.
    pub fn state(&self) -> [u8; 5]
        ensures { result ≡ error_state self.now }
    {
        form_of(self.number).0
    }

    /// The message, with the arguments in their places.
    pub fn text(&self, alloc: Global) -> Result<Text, AllocError>
        ensures { IfOk result (λ text. text ≡ error_text self.now) }
    {
        text_with(alloc, form_of(self.number).1, self.args.as_slice())
    }
}

impl TryCopy for SqlError {
    fn copy(&self) -> Result<SqlError, AllocError> {
        Ok(SqlError {
            number: self.number,
            args: self.args.copy()?,
        })
    }
}

/// What the table has for a number: the state, and the text with a `%` in the place of each argument.
type ErrorForm = ([u8; 5], &'static str);

fn form_among(rows: &[ErrorRow], number: u16) -> Option<ErrorForm>
    ensures { option_map (λ form. error_form form.0 form.1.now) result
        ≡ option_map (λ row. error_form row.1 row.2.now) (find (λ row. row.0 == number) rows.now) }
{
    rows.iter()
        .find(|row| row.0 == number)
        .map(|row| (row.1, row.2))
}

fn form_from_1007(number: u16) -> Option<ErrorForm>
    ensures { option_map (λ form. error_form form.0 form.1.now) result ≡ form_from_1007 number }
{
    form_among(&FROM_1007, number)
}

fn form_from_1064(number: u16) -> Option<ErrorForm>
    ensures { option_map (λ form. error_form form.0 form.1.now) result ≡ form_from_1064 number }
{
    form_among(&FROM_1064, number)
}

fn form_from_1113(number: u16) -> Option<ErrorForm>
    ensures { option_map (λ form. error_form form.0 form.1.now) result ≡ form_from_1113 number }
{
    form_among(&FROM_1113, number)
}

fn form_from_1701(number: u16) -> Option<ErrorForm>
    ensures { option_map (λ form. error_form form.0 form.1.now) result ≡ form_from_1701 number }
{
    form_among(&FROM_1701, number)
}

#[tactic(auto, using(crate::proofs::Parts::form_by_parts))]
fn form_in_table(number: u16) -> Option<ErrorForm>
    ensures { option_map (λ form. error_form form.0 form.1.now) result ≡ form_of number }
{
    form_from_1007(number)
        .or_else(|| form_from_1064(number))
        .or_else(|| form_from_1113(number))
        .or_else(|| form_from_1701(number))
}

fn form_of(number: u16) -> ErrorForm
    requires { IsTrue (is_some (form_of number)) }
    ensures { form_of number ≡ Some (error_form result.0 result.1.now) }
{
    match form_in_table(number) {
        Some(form) => form,
        None => unreachable!(),
    }
}

fn text_with(alloc: Global, template: &str, args: &[Text]) -> Result<Text, AllocError>
    ensures { IfOk result (λ text. text ≡ filled template.now args.now) }
{
    let mut text = Text::from_string(String::new(alloc));
    let mut rest = template;
    for arg in args {
        let (before, after) = parted(rest);
        push_both(&mut text, before, arg.as_str())?;
        rest = after;
    }
    text.push_str(rest)?;
    Ok(text)
}

fn push_both(text: &mut Text, before: &str, arg: &str) -> Result<(), AllocError>
    ensures { OnOk result (text.new ≡ text.old ++ before.now ++ arg.now) }
{
    text.push_str(before)?;
    text.push_str(arg)
}

fn parted(text: &str) -> (&str, &str)
    ensures before { result.0.now ≡ before_first (λ c. c == 37) text.now }
    ensures after { result.1.now ≡ after_first (λ c. c == 37) text.now }
{
    match text.split_once('%') {
        Some((before, after)) => (before, after),
        None => (text, ""),
    }
}
