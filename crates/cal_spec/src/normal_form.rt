//! The normal form of components: each range ends at the last number that it reaches (`20..39/5` becomes `20..35/5`),
//! and the parts are sorted, without duplicates.

ghost use Rattle.std.specs.Prelude.{◌≡◌, None, Some, map, option_map, if◌then◌else◌};
ghost use Rattle.std.specs.List.{AllByRecursion};
ghost use Rattle.cal_spec.specs.computed.NormalParts.{AreParts, IsPart, normal_component, normal_parts, normal_second, reduced, starred};

use crate::Part;

/// The part `0/1`, which matches every second.
const EVERY_SECOND_PART: Part = Part {
    start: 0,
    end: None,
    step: Some(1),
};

/// Brings a component into its normal form. `None`, which stands for `*`, is unchanged.
pub fn normal_component(parts: Option<Vec<Part>>) -> Option<Vec<Part>>
    requires { AreParts (option_map (λ v. v.items) parts) }
    ensures { option_map (λ v. v.items) result ≡ normal_component (option_map (λ v. v.items) parts) }
{
    match parts {
        Some(parts) => Some(normal_parts(parts)),
        None => None,
    }
}

/// Brings the seconds into their normal form. If only the part `0/1` is left, the result is `None`, which stands for
/// `*`.
#[tactic(auto, unfolding(crate::specs::computed::NormalParts::normal_second))]
pub fn normal_second(parts: Option<Vec<Part>>) -> Option<Vec<Part>>
    requires { AreParts (option_map (λ v. v.items) parts) }
    ensures { option_map (λ v. v.items) result ≡ normal_second (option_map (λ v. v.items) parts) }
{
    match normal_component(parts) {
        Some(parts) => {
            if is_every_number(&parts) {
                None
            } else {
                Some(parts)
            }
        }
        None => None,
    }
}

fn is_every_number(parts: &[Part]) -> bool
    ensures { starred parts.now ≡ (if result then None else Some parts.now) }
{
    match parts {
        [part] => *part == EVERY_SECOND_PART,
        _ => false,
    }
}

fn normal_parts(mut parts: Vec<Part>) -> Vec<Part>
    requires { AllByRecursion IsPart parts.items }
    ensures { result.items ≡ normal_parts parts.items }
{
    reduce_each(&mut parts);
    parts.sort_unstable();
    parts.dedup();
    parts
}

fn reduce_each(parts: &mut Vec<Part>)
    requires { AllByRecursion IsPart parts.old.items }
    ensures { parts.new.items ≡ map reduced parts.old.items }
{
    for part in parts.iter_mut() {
        *part = reduce(*part);
    }
}

/// Brings a part into its normal form. A range is shortened to end at the last number that it reaches; if this number
/// is its start, the result is a single number. A step of 1 is dropped from a range. Other parts are unchanged.
#[tactic(auto, unfolding(crate::specs::computed::NormalParts::reduced))]
fn reduce(part: Part) -> Part
    requires { IsPart part }
    ensures { result ≡ reduced part }
{
    let Some(end) = part.end else {
        return part;
    };
    let step = part.step.unwrap_or(1);
    let last = part.start + (end - part.start) / step * step;
    if last == part.start {
        return Part {
            start: part.start,
            end: None,
            step: None,
        };
    }
    Part {
        start: part.start,
        end: Some(last),
        step: part.step.filter(|step| *step != 1),
    }
}
