// The sessions of an input.
ghost use Rattle.std.specs.Prelude.{◌≡◌, ◌⊎◌, Err, IfOk};
ghost use Rattle.std.specs.List.{AllByRecursion};
ghost use Rattle.script_read.specs.Scripts.{scripts, scripts_in, IsFew, SaysNames};

use crate::group::sessions_in;
use crate::script::Script;
use dd_names::List;
use script_cut::{ScriptFault, fault_of, items};
use sql_ast_laws::{statement_laws, what_is_read_says_names};
use std::alloc::Global;
use std::str;

/// The greatest number of bytes of an input.
pub const MAX_INPUT: usize = 67_108_864;

#[tactic(auto, unfolding(crate::specs::Scripts::scripts_in))]
fn scripts_in(alloc: Global, text: &str) -> Result<List<Script>, ScriptFault>
    ensures exact { (result ≡ Err ScriptFault.Memory) ⊎ (result ≡ scripts_in text.now) }
    ensures few { IfOk result (λ sessions. AllByRecursion IsFew sessions) }
    ensures named { IfOk result (λ sessions. AllByRecursion SaysNames sessions) }
{
    statement_laws();
    what_is_read_says_names();
    let Ok(items) = items(alloc, text) else {
        return Err(ScriptFault::Memory);
    };
    match fault_of(alloc, text.as_bytes(), &items) {
        Ok(Some(fault)) => return Err(fault),
        Ok(None) => {}
        Err(_) => return Err(ScriptFault::Memory),
    }
    match sessions_in(alloc, text, &items) {
        Ok(sessions) => Ok(sessions),
        Err(_) => Err(ScriptFault::Memory),
    }
}

/// The sessions of an input with their statements, or its first fault, with its place in bytes.
#[tactic(auto, unfolding(crate::specs::Scripts::scripts))]
pub fn scripts(alloc: Global, bytes: &[u8]) -> Result<List<Script>, ScriptFault>
    ensures exact { (result ≡ Err ScriptFault.Memory) ⊎ (result ≡ scripts bytes.now) }
    ensures few { IfOk result (λ sessions. AllByRecursion IsFew sessions) }
    ensures named { IfOk result (λ sessions. AllByRecursion SaysNames sessions) }
{
    if bytes.len() > MAX_INPUT {
        return Err(ScriptFault::Limit { at: MAX_INPUT });
    }
    match str::from_utf8(bytes) {
        Ok(text) => scripts_in(alloc, text),
        Err(fault) => Err(ScriptFault::NotUtf8 {
            at: fault.valid_up_to(),
        }),
    }
}
