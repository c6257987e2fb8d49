// What the program doesn't run yet.
ghost use Rattle.std.specs.Prelude.{◌≡◌, ◌<◌, ◌^◌, MatchOption, None, Some, length, position};
ghost use Rattle.std.specs.List.{AllByRecursion};
ghost use Rattle.sql_ast.specs.declared.statement.Statement.{Statement as Words};
ghost use Rattle.script_read.specs.Scripts.{IsFew};
ghost use Rattle.dd_run.specs.Unbuilt.{is_unbuilt, first_unbuilt};

use rules_decide::is_decided;
use script_read::Script;
use sql_ast::Statement;

/// The place of the first statement of a kind that isn't run.
fn first_other(statements: &[Statement]) -> Option<usize>
    ensures { result ≡ position is_unbuilt statements.now }
{
    statements
        .iter()
        .position(|statement| !is_decided(statement))
}

/// The least session and number of what isn't run, if there is something.
#[tactic(auto, unfolding(crate::specs::Unbuilt::first_unbuilt))]
pub fn first_unbuilt(scripts: &[Script]) -> Option<(u32, u32)>
    requires { AllByRecursion IsFew scripts.now }
    ensures { result ≡ first_unbuilt scripts.now }
{
    let [script, rest @ ..] = scripts else {
        return None;
    };
    match first_other(script.statements.as_slice()) {
        Some(number) => Some((0, number as u32)),
        None if rest.is_empty() => None,
        None => Some((1, 0)),
    }
}
