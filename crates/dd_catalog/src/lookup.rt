ghost use Rattle.std.specs.Prelude.{◌≡◌, IfOk, Option, Some};
ghost use Rattle.dd_names.specs.Names.{fold};
ghost use Rattle.dd_names.specs.declared.object_name.ObjectKey.{ObjectKey as Key};
ghost use Rattle.dd_names.specs.declared.object_name.ObjectKey.TheVariants as keys;
ghost use Rattle.dd_catalog.specs.declared.object.Object.{Object as Found};
ghost use Rattle.dd_catalog.specs.Looked.{Tells};
ghost use Rattle.dd_catalog.specs.Sights.{sight};
ghost use Rattle.dd_catalog.specs.Walks.{run, look_at};
ghost use Rattle.dd_catalog.specs.Follow.{Follows, sights};

use crate::object::Object;
use crate::stop::Stop;
use dd_names::{Name, ObjName, ObjectKey, TryCopy, both};
use std::alloc::AllocError;

/// What a look-up knows of a key.
pub enum Known<'a> {
    /// This stands there; `Object::Absent` where nothing does.
    Here(&'a Object),
    /// It isn't known what stands there.
    Unknown,
}

/// Keys with what stands at them, as far as it is known.
pub trait Lookup {
    /// What is known at each key.
    ghost known: { Self → Key → Option Found };

    /// What is known of this key.
    fn look(&self, key: &ObjectKey) -> Known<'_>
        ensures { Tells result (known self.now key.now) };
}

/// What stands at a key, or the need of it where it isn't known.
pub fn look_at<'a, L: Lookup>(look: &'a L, key: &ObjectKey) -> Result<&'a Object, Stop>
    ensures seen { Follows (λ object. sight object.now) result (run (sights (L.known look.now)) (look_at key.now)) }
    ensures known { IfOk result (λ object. L.known look.now key.now ≡ Some object.now) }
{
    match look.look(key) {
        Known::Here(object) => Ok(object),
        Known::Unknown => Err(Stop::Need(key.copy()?)),
    }
}

/// What stands at a schema's key.
pub fn schema_at<'a, L: Lookup>(look: &'a L, schema: &Name) -> Result<&'a Object, Stop>
    ensures seen { Follows (λ object. sight object.now) result (run (sights (L.known look.now)) (look_at (keys.Schema schema.now))) }
    ensures known { IfOk result (λ object. L.known look.now (keys.Schema schema.now) ≡ Some object.now) }
{
    look_at(look, &ObjectKey::Schema(schema.copy()?))
}

/// The names of a schema's objects.
pub fn objects_at<'a, L: Lookup>(look: &'a L, schema: &Name) -> Result<&'a Object, Stop>
    ensures seen { Follows (λ object. sight object.now) result (run (sights (L.known look.now)) (look_at (keys.Objects schema.now))) }
    ensures known { IfOk result (λ object. L.known look.now (keys.Objects schema.now) ≡ Some object.now) }
{
    look_at(look, &ObjectKey::Objects(schema.copy()?))
}

/// What stands at the key of a table or a view.
pub fn object_at<'a, L: Lookup>(look: &'a L, name: &ObjName) -> Result<&'a Object, Stop>
    ensures seen { Follows (λ object. sight object.now) result (run (sights (L.known look.now)) (look_at (keys.Object name.now))) }
    ensures known { IfOk result (λ object. L.known look.now (keys.Object name.now) ≡ Some object.now) }
{
    look_at(look, &ObjectKey::Object(name.copy()?))
}

/// The names of the tables with a foreign key to a table.
pub fn children_at<'a, L: Lookup>(look: &'a L, parent: &ObjName) -> Result<&'a Object, Stop>
    ensures seen { Follows (λ object. sight object.now) result (run (sights (L.known look.now)) (look_at (keys.Children parent.now))) }
    ensures known { IfOk result (λ object. L.known look.now (keys.Children parent.now) ≡ Some object.now) }
{
    look_at(look, &ObjectKey::Children(parent.copy()?))
}

/// What has a constraint of a schema, by the constraint's name as it is written.
pub fn constraint_at<'a, L: Lookup>(
    look: &'a L,
    schema: &Name,
    name: &Name,
) -> Result<&'a Object, Stop>
    ensures seen { Follows (λ object. sight object.now) result (run (sights (L.known look.now)) (look_at (keys.Constraint schema.now (fold name.now)))) }
    ensures known { IfOk result (λ object. L.known look.now (keys.Constraint schema.now (fold name.now)) ≡ Some object.now) }
{
    let key = constraint_key(schema, name)?;
    look_at(look, &key)
}

fn constraint_key(schema: &Name, name: &Name) -> Result<ObjectKey, AllocError>
    ensures { IfOk result (λ key. key ≡ keys.Constraint schema.now (fold name.now)) }
{
    match both(schema.copy(), name.fold()) {
        Ok((schema, folded)) => Ok(ObjectKey::Constraint { schema, folded }),
        Err(error) => Err(error),
    }
}
