//! Lists of two.
ghost use Rattle.std.specs.Prelude.{◌≡◌, option_map};
ghost use Rattle.json_base.specs.Parts.{pair_of};
ghost use Rattle.serde_json.specs.View.{view};

use serde_json::Value;

/// The two values of a list of two.
pub fn pair_of(json: &Value) -> Option<(&Value, &Value)>
    ensures { option_map (λ p. (view p.0.now, view p.1.now)) result ≡ pair_of (view json.now) }
{
    let first = json.get(0usize)?;
    let second = json.get(1usize)?;
    if json.get(2usize).is_some() {
        return None;
    }
    Some((first, second))
}
