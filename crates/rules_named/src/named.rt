// The objects that a statement names.
ghost use Rattle.std.specs.Prelude.{◌≡◌, ◌⊎◌, Err, IfOk, IsOk, Some};
ghost use Rattle.std.specs.Option.{option_copied};
ghost use Rattle.dd_catalog.specs.Sights.{sight};
ghost use Rattle.dd_catalog.specs.Walks.{run, look_at, each, every};
ghost use Rattle.dd_catalog.specs.WalkLaws.{Look};
ghost use Rattle.dd_catalog.specs.Follow.{Follows, sights};
ghost use Rattle.rules_elements.specs.Keys.{first_given};
ghost use Rattle.rules_named.specs.Named.{resolved, schema_there, own_schema_there, one_named, all_named};

use dd_catalog::{Lookup, Object, Stop, schema_at};
use dd_names::{List, Name, ObjName, ObjectKey, TryCopy};
use sql_types::ObjRef;
use std::alloc::Global;

/// The first name, or the other where there is none.
pub fn first_given<'a>(given: &'a Option<Name>, other: &'a Option<Name>) -> Option<&'a Name>
    ensures { option_copied result ≡ first_given given.now other.now }
{
    match given {
        Some(name) => Some(name),
        None => other.as_ref(),
    }
}

/// The object's name with the schema that is written, or with the current one; with neither 1046.
#[tactic(auto, unfolding(crate::specs::Named::resolved))]
pub fn resolved(alloc: Global, current: &Option<Name>, named: &ObjRef) -> Result<ObjName, Stop>
    ensures { (look : Look) → Follows (λ object. object) result (run look (resolved current.now named.now)) }
{
    match first_given(&named.schema, current) {
        None => Err(rules_refusals::no_db(alloc)),
        Some(schema) => Ok(ObjName {
            schema: schema.copy()?,
            name: named.name.copy()?,
        }),
    }
}

/// What stands at a schema that is there; where it isn't, 1049.
#[tactic(auto, using(dd_catalog::specs::WalkLaws::run_bind), unfolding(crate::specs::Named::schema_there))]
pub fn schema_there<'a, L: Lookup>(
    alloc: Global,
    schema: &Name,
    look: &'a L,
) -> Result<&'a Object, Stop>
    ensures seen { Follows (λ _. tt) result (run (sights (L.known look.now)) (schema_there schema.now)) }
    ensures known { IfOk result (λ object. L.known look.now (ObjectKey.Schema schema.now) ≡ Some object.now) }
{
    match schema_at(look, schema)? {
        Object::Absent => Err(rules_refusals::bad_db(alloc, schema)?),
        object => Ok(object),
    }
}

/// The object that is named, whose schema is there: 1046, 1049.
#[tactic(auto, using(dd_catalog::specs::WalkLaws::run_bind), unfolding(crate::specs::Named::one_named))]
pub fn one_named<L: Lookup>(
    alloc: Global,
    current: &Option<Name>,
    named: &ObjRef,
    look: &L,
) -> Result<ObjName, Stop>
    ensures { Follows (λ object. object) result (run (sights (L.known look.now)) (one_named current.now named.now)) }
{
    let object = resolved(alloc, current, named)?;
    schema_there(alloc, &object.schema, look)?;
    Ok(object)
}

/// An object that is named, and the id of its schema.
#[derive(Drop)]
pub struct Placed {
    pub name: ObjName,
    pub schema: u32,
}

/// As `one_named`, with the id of the schema.
#[tactic(auto, using(dd_catalog::specs::WalkLaws::run_bind), unfolding(crate::specs::Named::one_named))]
pub fn one_placed<L: Lookup>(
    alloc: Global,
    current: &Option<Name>,
    named: &ObjRef,
    look: &L,
) -> Result<Placed, Stop>
    ensures seen { Follows (λ placed. placed.name) result (run (sights (L.known look.now)) (one_named current.now named.now)) }
    ensures known { IfOk result (λ placed. L.known look.now (ObjectKey.Schema placed.name.schema) ≡ Some (Object.Schema placed.schema)) }
{
    let name = resolved(alloc, current, named)?;
    let schema = schema_id(schema_there(alloc, &name.schema, look)?)?;
    Ok(Placed { name, schema })
}

/// The id of what stands at a schema's key. What isn't a schema never stands there, and gets no answer.
pub fn schema_id(object: &Object) -> Result<u32, Stop>
    ensures id { IfOk result (λ id. object.now ≡ Object.Schema id) }
    ensures none { result ≡ Err Stop.Memory ⊎ IsOk result }
{
    match object {
        Object::Schema { id } => Ok(*id),
        _ => Err(Stop::Memory),
    }
}

/// The objects that are named, whose schemas are there: first 1046 of each, and then 1049.
#[tactic(auto, using(dd_catalog::specs::WalkLaws::run_bind), unfolding(crate::specs::Named::all_named))]
pub fn all_named<L: Lookup>(
    alloc: Global,
    current: &Option<Name>,
    named: &[ObjRef],
    look: &L,
) -> Result<List<ObjName>, Stop>
    ensures { Follows (λ objects. objects) result (run (sights (L.known look.now)) (all_named current.now named.now)) }
{
    let objects = all_resolved(alloc, current, named)?;
    own_schemas_there(alloc, objects.as_slice(), look)?;
    Ok(objects)
}

fn all_resolved(
    alloc: Global,
    current: &Option<Name>,
    named: &[ObjRef],
) -> Result<List<ObjName>, Stop>
    ensures { (look : Look) → Follows (λ objects. objects) result (run look (each (resolved current.now) named.now)) }
{
    let mut objects = List::new(alloc);
    'names: for name in named {
        objects.push(resolved(alloc, current, name)?)?;
    }
    Ok(objects)
}

fn own_schemas_there<L: Lookup>(alloc: Global, objects: &[ObjName], look: &L) -> Result<(), Stop>
    ensures { Follows (λ _. tt) result (run (sights (L.known look.now)) (every own_schema_there objects.now)) }
{
    'objects: for object in objects {
        schema_there(alloc, &object.schema, look)?;
    }
    Ok(())
}
