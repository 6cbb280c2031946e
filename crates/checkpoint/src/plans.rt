ghost use Rattle.std.specs.Prelude.{◌≡◌, ◌<◌, [], ◌∷◌, ◌++◌, IfNone, IfSome, None, Some, vec_len};
ghost use Rattle.checkpoint.specs.Keeper.{plans_of};
ghost use Rattle.std.specs.Vec.{vec_capacity};

use device_image::CopyPlan;

// Adds the plan of another area after those that are under way or wait; there is room for it.
pub fn add_plan(plan: &mut Option<CopyPlan>, waiting: &mut Vec<CopyPlan>, last: CopyPlan)
    requires room { vec_len waiting.old < vec_capacity waiting.old }
    requires none { plan.old ≡ None → waiting.old.items ≡ [] }
    ensures first { IfNone plan.old ((plan.new ≡ Some last) × (waiting.new.items ≡ [])) }
    ensures behind { IfSome plan.old (λ first. (plan.new ≡ Some first) × (waiting.new.items ≡ waiting.old.items ++ last ∷ [])) }
{
    match plan {
        None => *plan = Some(last),
        Some(_) => {
            let _ = waiting.push(last);
        }
    }
}

// Takes the first of the checkpoints that wait.
pub fn take_first(waiting: &mut Vec<CopyPlan>) -> Option<CopyPlan>
    ensures plans { plans_of result waiting.new.items ≡ waiting.old.items }
    ensures none { result ≡ None → waiting.new.items ≡ [] }
{
    if waiting.is_empty() {
        return None;
    }
    Some(waiting.remove(0))
}
