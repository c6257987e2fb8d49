ghost use Rattle.std.specs.Prelude.{ℕ};
ghost use Rattle.dd_definitions.specs.declared.parts.TableParts.{TableParts};
ghost use Rattle.dd_definitions.specs.declared.view_parts.ViewParts.{ViewParts};
ghost use Rattle.rules_outcome_examples.specs.Numbers.{AreNumbered, numbered};

/// What stands at a key behind a statement takes the numbers that stand beside it. It does nothing when it runs.
pub fn numbers_are_judged()
    ensures { (space : ℕ) (table : TableParts) (view : ViewParts) → AreNumbered (numbered space table view) }
{}
