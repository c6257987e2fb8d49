// The names of constraints behind a renaming.
ghost use Rattle.std.specs.Prelude.{◌≡◌, IfOk, length, nat_lt};
ghost use Rattle.dd_catalog.specs.WalkLaws.{Look};
ghost use Rattle.dd_catalog.specs.Walks.{run, refuse_if};
ghost use Rattle.dd_catalog.specs.Follow.{Follows};
ghost use Rattle.rules_refusals.specs.Refusals.{too_long_ident};
ghost use Rattle.rules_rename.specs.Renames.{renamed_constraint};

use dd_catalog::Stop;
use dd_names::{Name, NameFault, Text};
use rules_create::{behind, constraint_front};
use std::alloc::{AllocError, Global};

/// The constraint's name, which has the table's new name in front where it had the old one there.
#[tactic(auto, unfolding(crate::specs::Renames::renamed_constraint))]
fn renamed_constraint(
    alloc: Global,
    from: &Name,
    to: &Name,
    name: &Name,
) -> Result<Text, AllocError>
    ensures { IfOk result (λ text. text ≡ renamed_constraint from.now to.now name.now) }
{
    let front = constraint_front(alloc, from)?;
    match behind(front.as_str(), name.as_str()) {
        None => name.to_text(),
        Some(rest) => {
            let mut text = constraint_front(alloc, to)?;
            text.push_str(rest)?;
            Ok(text)
        }
    }
}

/// The constraint's new name; above 64 characters 1059. It has no other fault, as it is made of names.
pub(crate) fn fitting_name(alloc: Global, from: &Name, to: &Name, name: &Name) -> Result<Name, Stop>
    ensures fits { (look : Look) → Follows (λ _. tt) result (run look (refuse_if (nat_lt 64 (length (renamed_constraint from.now to.now name.now))) (too_long_ident (renamed_constraint from.now to.now name.now)))) }
    ensures name { IfOk result (λ made. made ≡ renamed_constraint from.now to.now name.now) }
{
    let text = renamed_constraint(alloc, from, to, name)?;
    match Name::read(alloc, text.as_str(), true) {
        Ok(name) => Ok(name),
        Err(NameFault::TooLong) => Err(rules_refusals::too_long_ident(alloc, text.as_str())?),
        Err(_) => Err(Stop::Memory),
    }
}
