// The first rule that is broken.
ghost use Rattle.std.specs.Prelude.{◌≡◌, ◌↔◌, [], Decides, IfSome, None};
ghost use Rattle.jr_marks.specs.Places.{IsOrdered};
ghost use Rattle.jr_front.specs.Broken.{IsBetter, IsBetterOf, IsFirstBroken};

use crate::unbound::is_before;
use jr_base::Place;
use jr_marks::Marks;
use jr_rule::{Fault, Rule};

// Whether the rule broken at the place comes before the best so far: by place, and at one place by number.
fn is_better(rule: Rule, place: Place, best: (Rule, Place)) -> bool
    ensures { Decides result (IsBetter (rule, place) best) }
{
    is_before(place, best.1) || (place == best.1 && rule.number() < best.0.number())
}

// The better one of the best so far, if there is one, and the rule broken at the place.
fn better_of(best: Option<(Rule, Place)>, rule: Rule, place: Place) -> (Rule, Place)
    ensures { IsBetterOf best (rule, place) result }
{
    match best {
        Some(best) if !is_better(rule, place, best) => best,
        _ => (rule, place),
    }
}

/// Of the rules that are broken, the first by place, and at one place the one with the least number.
pub fn first_broken(faults: &[Fault], marks: &Marks) -> Option<(Rule, Place)>
    ensures none { result ≡ None ↔ faults.now ≡ [] }
    ensures first { IsOrdered marks.now → IfSome result (IsFirstBroken marks.now faults.now) }
{
    let mut first: Option<(Rule, Place)> = None;
    for fault in faults {
        first = Some(better_of(first, fault.rule, marks.fault_place(*fault)));
    }
    first
}
