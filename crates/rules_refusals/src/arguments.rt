// The arguments of the texts of errors.
ghost use Rattle.std.specs.Prelude.{◌≡◌, [], ◌∷◌, IfOk};

use dd_names::{List, Text};
use std::alloc::{AllocError, Global};

pub fn one(alloc: Global, argument: &str) -> Result<List<Text>, AllocError>
    ensures { IfOk result (λ arguments. arguments ≡ argument.now ∷ []) }
{
    let mut arguments = List::new(alloc);
    arguments.push(Text::of(alloc, argument)?)?;
    Ok(arguments)
}

pub fn two(alloc: Global, first: &str, second: &str) -> Result<List<Text>, AllocError>
    ensures { IfOk result (λ arguments. arguments ≡ first.now ∷ second.now ∷ []) }
{
    let mut arguments = one(alloc, first)?;
    arguments.push(Text::of(alloc, second)?)?;
    Ok(arguments)
}

pub fn three(
    alloc: Global,
    first: &str,
    second: &str,
    third: &str,
) -> Result<List<Text>, AllocError>
    ensures { IfOk result (λ arguments. arguments ≡ first.now ∷ second.now ∷ third.now ∷ []) }
{
    let mut arguments = two(alloc, first, second)?;
    arguments.push(Text::of(alloc, third)?)?;
    Ok(arguments)
}
