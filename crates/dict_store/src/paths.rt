// The paths of the system files.
ghost use Rattle.std.specs.Prelude.{◌≡◌, ◌||◌};
ghost use Rattle.dict_store_laws.specs.System.{is_system};

use ddl_log::LogRecord;

/// Whether the path is a system file's.
#[tactic(auto, unfolding(dict_store_laws::specs::System::is_system))]
pub fn is_system(path: &str) -> bool
    ensures { result ≡ is_system path.now }
{
    path == "#dd/dict" || path == "#dd/dict.new"
}

/// Whether the record names a system file.
pub fn names_system(item: &LogRecord) -> bool
    ensures { result ≡ (is_system item.now.old_path || is_system item.now.new_path) }
{
    is_system(item.old_path.as_str()) || is_system(item.new_path.as_str())
}
