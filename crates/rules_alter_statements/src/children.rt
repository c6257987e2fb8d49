// The children of the table that is altered.
ghost use Rattle.std.specs.Prelude.{◌≡◌, [], ◌++◌, ◌∷◌, IfOk, OnOk, length, nat_lt};
ghost use Rattle.dd_catalog.specs.Sights.{sight};
ghost use Rattle.dd_catalog.specs.Walks.{run, over, refuse_if};
ghost use Rattle.dd_catalog.specs.WalkLaws.{Look};
ghost use Rattle.dd_catalog.specs.Follow.{Follows, sights};
ghost use Rattle.rules_refusals.specs.Refusals.{beyond_limit};
ghost use Rattle.rules_alter.specs.Statements.{child_of, child_seen, children_of, one_child};

use dd_catalog::{Lookup, Object, Stop, children_at, object_at};
use dd_definitions::TableParts;
use dd_names::{List, ObjName, TryCopy, both};
use rules_alter::Child;
use rules_schema::children_seen;
use std::alloc::{AllocError, Global};

/// The other tables with a foreign key to the table, as they stand; of more than 4,096: 9001.
#[tactic(auto, using(dd_catalog::specs::WalkLaws::run_bind), unfolding(rules_alter::specs::Statements::children_of))]
pub(crate) fn children_of<L: Lookup>(
    alloc: Global,
    table: &ObjName,
    look: &L,
) -> Result<List<Child>, Stop>
    ensures { Follows (λ children. children) result (run (sights (L.known look.now)) (children_of table.now)) }
{
    let names = children_seen(children_at(look, table)?);
    allow_count(alloc, names)?;
    all_children(alloc, names, look)
}

fn allow_count(alloc: Global, names: &[ObjName]) -> Result<(), Stop>
    ensures { (look : Look) → Follows (λ _. tt) result (run look (refuse_if (nat_lt 4096 (length names.now)) (beyond_limit "4096"))) }
{
    if names.len() > 4096 {
        return Err(rules_refusals::beyond_limit(alloc, "4096")?);
    }
    Ok(())
}

fn all_children<L: Lookup>(alloc: Global, names: &[ObjName], look: &L) -> Result<List<Child>, Stop>
    ensures { Follows (λ children. children) result (run (sights (L.known look.now)) (over one_child [] names.now)) }
{
    let mut children = List::new(alloc);
    'names: for name in names {
        one_child(&mut children, name, look)?;
    }
    Ok(children)
}

/// One child more.
#[tactic(auto, using(dd_catalog::specs::WalkLaws::run_bind), unfolding(rules_alter::specs::Statements::one_child))]
fn one_child<L: Lookup>(children: &mut List<Child>, name: &ObjName, look: &L) -> Result<(), Stop>
    ensures { Follows (λ _. children.new) result (run (sights (L.known look.now)) (one_child children.old name.now)) }
{
    let object = object_at(look, name)?;
    add_child(children, name, object)?;
    Ok(())
}

fn add_child(children: &mut List<Child>, name: &ObjName, object: &Object) -> Result<(), AllocError>
    ensures { OnOk result (children.new ≡ children.old ++ child_seen name.now (sight object.now)) }
{
    match object {
        Object::Table { space, def, .. } => {
            children.push(child_of(name, *space, def.parts())?)?;
            Ok(())
        }
        _ => Ok(()),
    }
}

fn child_of(name: &ObjName, space: u32, parts: &TableParts) -> Result<Child, AllocError>
    ensures { IfOk result (λ child. child ≡ child_of name.now space parts.now) }
{
    match both(name.copy(), parts.copy()) {
        Ok((name, parts)) => Ok(Child {
            name,
            space,
            parts,
            is_changed: false,
        }),
        Err(error) => Err(error),
    }
}
