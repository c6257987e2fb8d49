use crate::child_names::ChildNames;
use crate::left::Left;
use crate::overlay::Overlay;
use dd_names::{List, ObjName};

/// What a pair changes: names with what is left at each, and the children of its table.
#[derive(Drop)]
pub(crate) struct Renamed {
    pub(crate) changes: List<(ObjName, Left)>,
    pub(crate) children: List<ObjName>,
}

/// What the pairs so far change, and the different children of their tables.
#[derive(Drop)]
pub(crate) struct Renaming {
    pub(crate) overlay: Overlay,
    pub(crate) children: ChildNames,
}
