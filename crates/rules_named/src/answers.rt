// The edits of a statement.
ghost use Rattle.std.specs.Prelude.{◌≡◌, ◌++◌, [], ◌∷◌, Option, IfOk, OnOk, map};
ghost use Rattle.dd_names.specs.declared.object_name.ObjectKey.{ObjectKey as Key};
ghost use Rattle.dd_catalog.specs.declared.object.Object.{Object as Standing};
ghost use Rattle.rules_outcome.specs.Decided.{there, change_of, IsBefore, HasIds};
ghost use Rattle.rules_named.specs.Answers.{AllBefore, AllIds};

use dd_catalog::Object;
use dd_names::{List, TryCopy};
use rules_outcome::Edit;
use std::alloc::AllocError;

/// A copy of what stood there, or None where nothing did.
pub fn stood(object: &Object) -> Result<Option<Object>, AllocError>
    ensures { IfOk result (λ before. before ≡ there object.now) }
{
    match object {
        Object::Absent => Ok(None),
        object => Ok(Some(object.copy()?)),
    }
}

/// Adds an edit. Where its key has what it says, and it leaves such ids as are known, this holds of all edits as it did before.
pub fn add_edit(edits: &mut List<Edit>, edit: Edit) -> Result<(), AllocError>
    ensures changes { OnOk result (map change_of edits.new ≡ map change_of edits.old ++ change_of edit ∷ []) }
    ensures before { (known : Key → Option Standing) → AllBefore known edits.old → IsBefore (known edit.key) edit.before → IfOk result (λ _. AllBefore known edits.new) }
    ensures ids { (known : Key → Option Standing) → AllIds known edits.old → HasIds known edit.key edit.after → IfOk result (λ _. AllIds known edits.new) }
{
    edits.push(edit)?;
    Ok(())
}
