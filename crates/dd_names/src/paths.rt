// Where the tablespace files lie in the data folder.
ghost use Rattle.std.specs.Prelude.{◌≡◌, ℕ, ◌<◌, ◌^◌, List, IfOk};
ghost use Rattle.dd_names.specs.Names.{IsName};
ghost use Rattle.dd_names.specs.Paths.{IsObjName, path, temporary_path, dictionary_path, new_dictionary_path};
ghost use Rattle.dd_names.specs.declared.object_name.ObjName.{ObjName};

use crate::name::Name;
use crate::object_name::ObjName;
use crate::text::Text;
use std::alloc::{AllocError, Global};

/// The path of a table's tablespace file, as `d/t.ibd` (MySQL 8.0 Reference Manual, 15.6.3.2).
pub fn path_of(alloc: Global, name: &ObjName) -> Result<Text, AllocError>
    ensures { IfOk result (λ text. text ≡ path name.now) }
{
    let schema = name.schema.as_str();
    let table = name.name.as_str();
    Ok(Text::from_string(format!(in alloc; "{schema}/{table}.ibd")?))
}

/// The path of a tablespace file that belongs to no table yet, as `d/#sql-ib7.ibd` for the tablespace with number 7.
pub fn temp_path(alloc: Global, schema: &Name, space: u32) -> Result<Text, AllocError>
    ensures { IfOk result (λ text. text ≡ temporary_path schema.now space) }
{
    let schema = schema.as_str();
    Ok(Text::from_string(format!(in alloc; "{schema}/#sql-ib{space}.ibd")?))
}

/// A path determines whose it is: no two objects have one path, and no object has a temporary path or the path of a file of
/// the dictionary. A temporary path determines its schema and number. It does nothing.
pub fn paths_are_apart()
    ensures objects { (a b : ObjName) → IsObjName a → IsObjName b → path a ≡ path b → a ≡ b }
    ensures not_temporary { (a : ObjName) (schema : List ℕ) (space : ℕ) → IsObjName a → IsName schema →
        path a ≡ temporary_path schema space → ⊥ }
    ensures not_dictionary { (a : ObjName) → IsObjName a → path a ≡ dictionary_path → ⊥ }
    ensures not_new_dictionary { (a : ObjName) → IsObjName a → path a ≡ new_dictionary_path → ⊥ }
    ensures temporary { (s t : List ℕ) (m n : ℕ) → IsName s → IsName t → m < 2 ^ 32 → n < 2 ^ 32 →
        temporary_path s m ≡ temporary_path t n → (s ≡ t) × (m ≡ n) }
{}
