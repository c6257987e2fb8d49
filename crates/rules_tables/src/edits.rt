ghost use Rattle.std.specs.Prelude.{◌≡◌, [], ◌∷◌, Option, IfOk};
ghost use Rattle.dd_names.specs.declared.object_name.ObjectKey.{ObjectKey as Key};
ghost use Rattle.dd_catalog.specs.declared.object.Object.{Object as Standing};
ghost use Rattle.rules_outcome.specs.Choices.{Changes};
ghost use Rattle.rules_outcome.specs.Decided.{change_of, choice_of, AreBefore, HasIds, HaveIds, IsBefore};

use dd_names::{List, TryCopy};
use rules_outcome::{Decided, Edit, Edits};
use sql_ast::SessionState;
use std::alloc::{AllocError, Global};

/// A statement that changes one thing, and leaves the session as it is.
pub(crate) fn one_edit(
    alloc: Global,
    session: &SessionState,
    edit: Edit,
) -> Result<Edits, AllocError>
    ensures made { IfOk result (λ edits. choice_of edits ≡ Changes (change_of edit ∷ []) session.now) }
    ensures before { (known : Key → Option Standing) → IsBefore (known edit.key) edit.before → IfOk result (λ edits. AreBefore known (Decided.Edits edits)) }
    ensures ids { (known : Key → Option Standing) → HasIds known edit.key edit.after → IfOk result (λ edits. HaveIds known (Decided.Edits edits)) }
{
    let mut puts = List::new(alloc);
    puts.push(edit)?;
    match session.copy() {
        Ok(session) => Ok(Edits { puts, session }),
        Err(error) => Err(error),
    }
}
