use plain_catalog::PlainCatalog;
use sql_ast::SessionState;

/// What a dictionary of one session keeps between two statements.
#[derive(Drop)]
pub struct State {
    pub catalog: PlainCatalog,
    pub session: SessionState,
    /// The next number for an id or a tablespace.
    pub next: u32,
    /// The greatest size of what may still be listed.
    pub room: u64,
}
