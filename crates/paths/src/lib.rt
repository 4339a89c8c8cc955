// Paths of trees, and going through a basic plan from its root: where the subplan of each word starts, and where the operands of an operator end.
#![tactic(auto)]

ghost use Rattle.std.specs.Prelude.{◌≡◌, ◌-◌, ◌≤◌, ◌<◌, length, get_or};
ghost use Rattle.std.proofs.Math.Option.{none};
ghost use Rattle.plans.specs.Judging.{words_refusal};
ghost use Rattle.paths.specs.Operands.{second_operand, Starts};

// For every word of an accepted plan, where the subplan whose last word it is starts.
pub fn find_starts(n: u8, plan: &[u8], starts: &mut [u16])
    requires { (n ≤ 31) × (words_refusal n plan.now ≡ none) × (length plan.now ≤ length starts.old) }
    ensures { Starts n plan.now starts.new }
{
    for (i, &word) in plan.iter().enumerate() {
        starts[i] = plans::start_of_next(n, word, starts, i);
    }
}

// The places of both operands of the operator at word i: the first ends just before the second starts, and the second just before the operator.
pub fn operands(starts: &[u16], i: usize) -> (usize, usize)
    requires { (0 < i) × (i ≤ length starts.now) × (0 < get_or starts.now (second_operand i) 0) }
    ensures { (result.0 ≡ get_or starts.now (second_operand i) 0 - 1) × (result.1 ≡ second_operand i) }
{
    let second = i - 1;
    (starts[second] as usize - 1, second)
}
