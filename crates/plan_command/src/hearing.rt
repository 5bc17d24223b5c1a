//! What a checker is told of a text, of a plan or of a gap plan.

ghost use Rattle.std.specs.Prelude.{◌<◌, ◌^◌, ◌++◌, ◌∷◌, [], ℕ, List};
ghost use Rattle.tree_format.specs.declared.plan_item.PlanItem.{PlanItem as ItemLem};
ghost use Rattle.tree_format.specs.declared.plan_item.PlanItem.TheVariants as items;
ghost use Rattle.tree_format.specs.declared.plan_line.Family.{Family as FamilyLem};
ghost use Rattle.tree_checker.specs.Progress.{IsUnderWay, IsMadeFor};
ghost use Rattle.plan_command.specs.declared.hearing.Head.{Head as HeadLem};
ghost use Rattle.plan_command.specs.Intakes.{HasHeard};

use bound_tree::{GapNode, Numbers};
use search_model::{Scenario, Standing};
use tree_checker::Checker;
use tree_format::{Family, first_line};

/// The head of a text, of a plan or of a gap plan. The ceiling of a plan is its value, and it has no numbers: either would do.
#[derive(Clone, Copy)]
pub struct Head {
    pub standing: Standing,
    pub weight: u128,
    pub ceiling: u128,
    pub numbers: Numbers,
}

/// Tells the head of a text of the family.
pub fn hear_head(checker: &mut Checker, sc: &Scenario, family: Family, head: &Head)
    requires { IsMadeFor sc.now checker.old }
    ensures { (count : ℕ) → HasHeard family sc.now
        (items.Head head.now.standing head.now.weight head.now.ceiling head.now.numbers count ∷ []) head.now checker.new }
{
    checker.begin(
        sc,
        first_line(family),
        head.numbers,
        &head.standing,
        head.weight,
    );
}

/// Tells the next node of a text.
pub fn hear_node(checker: &mut Checker, sc: &Scenario, node: &GapNode)
    requires under_way { IsUnderWay sc.now checker.old }
    requires line { checker.old.line < 2 ^ 63 }
    requires made { IsMadeFor sc.now checker.old }
    ensures { (family : FamilyLem) (told : List ItemLem) (head : HeadLem) → HasHeard family sc.now told head checker.old
        → HasHeard family sc.now (told ++ items.Node node.now ∷ []) head checker.new }
{
    checker.take(sc, node);
}
