ghost use Rattle.std.specs.Prelude.{◌≡◌, true, List};
ghost use Rattle.std.specs.List.{list_all, AllByRecursion};
ghost use Rattle.sql_ast.specs.declared.action.AlterAction.{AlterAction};
ghost use Rattle.dd_catalog.specs.Walks.{fine, run};
ghost use Rattle.dd_catalog.specs.WalkLaws.{Look};
ghost use Rattle.rules_create.specs.Leaves.{IsTableAt, SeesFormed};
ghost use Rattle.rules_alter.specs.Statements.{all_acted};
ghost use Rattle.rules_alter.specs.declared.states.Altering.{Altering};
ghost use Rattle.rules_alter.specs.declared.states.Child.{Child};
ghost use Rattle.rules_alter_laws.specs.Stands.{StandsInOrder};
ghost use Rattle.rules_alter_keys_laws.specs.Children.{AreChildrenOf};
ghost use Rattle.rules_alter_keys_laws.specs.Grounds.{IsGrounded, ArePaired};
ghost use Rattle.rules_alter_keys_laws.specs.Led.{IsLed};

/// Behind all actions the foreign keys on the table have their indexes there, where they had them before. No other table has the
/// names of its own, and their parents have their indexes, where that was so before. The children are the same but for the names of
/// the table's columns, and the columns of all these foreign keys are paired. It does nothing when it runs.
pub fn actions_keep_foreign_keys()
    ensures led { (look : Look) (start : Altering) (acts : List AlterAction) (state : Altering) → SeesFormed look → StandsInOrder start.parts → AllByRecursion (λ (child : Child). IsTableAt child.name child.parts) start.children
        → run look (all_acted start acts) ≡ fine state → IsLed start → IsLed state }
    ensures grounded { (look : Look) (start : Altering) (acts : List AlterAction) (state : Altering) → SeesFormed look → StandsInOrder start.parts → AllByRecursion (λ (child : Child). IsTableAt child.name child.parts) start.children
        → run look (all_acted start acts) ≡ fine state → IsGrounded look start → IsGrounded look state }
    ensures children { (look : Look) (start : Altering) (acts : List AlterAction) (state : Altering) → SeesFormed look → StandsInOrder start.parts → AllByRecursion (λ (child : Child). IsTableAt child.name child.parts) start.children
        → run look (all_acted start acts) ≡ fine state → AreChildrenOf start.parts.name start.children state.children }
    ensures paired { (look : Look) (start : Altering) (acts : List AlterAction) (state : Altering) → SeesFormed look → StandsInOrder start.parts → AllByRecursion (λ (child : Child). IsTableAt child.name child.parts) start.children
        → run look (all_acted start acts) ≡ fine state → ArePaired look state }
{}
