// The kinds of subplans, by which one scan of a plan's words tells whether it is basic.
ghost use Rattle.std.specs.Prelude.{◌≡◌};
ghost use Rattle.plans.specs.Kinds.{basic_kind?, sum_kind?, action_kind, joined_kind};

use super::Binary;

// No basic plan; dead stop; an action other than 0; any other sum_plan.
#[derive(Clone, Copy, Debug, PartialEq, Eq)]
pub enum Kind {
    NotBasic,
    DeadStop,
    LiveAction,
    SumPlan,
}

impl Kind {
    // Whether it is that of basic plans.
    pub fn is_basic(self) -> bool
        ensures { result ≡ basic_kind? self }
    {
        self != Kind::NotBasic
    }

    // Whether it is that of sum_plans.
    pub fn is_sum_plan(self) -> bool
        ensures { result ≡ sum_kind? self }
    {
        matches!(self, Kind::LiveAction | Kind::SumPlan)
    }
}

#[tactic(auto, unfolding(crate::specs::Kinds::action_kind))]
pub fn action_kind(action: u8) -> Kind
    ensures whole { result ≡ action_kind action }
{
    if action == 0 {
        Kind::DeadStop
    } else {
        Kind::LiveAction
    }
}

// "such an action · a basic plan, or sum_plan + sum_plan"; nothing else of two operands is basic.
#[tactic(auto, unfolding(crate::specs::Kinds::joined_kind))]
pub fn join_kinds(operator: Binary, left: Kind, right: Kind) -> Kind
    ensures whole { result ≡ joined_kind operator left right }
{
    let basic = match operator {
        Binary::Choice => left.is_sum_plan() && right.is_sum_plan(),
        Binary::Sequence => left == Kind::LiveAction && right.is_basic(),
        _ => false,
    };
    if basic { Kind::SumPlan } else { Kind::NotBasic }
}
