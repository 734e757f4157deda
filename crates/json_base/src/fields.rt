//! The members of an object, read one after another.
ghost use Rattle.std.specs.Prelude.{◌≡◌, Some, None, option_map, if◌then◌else◌};
ghost use Rattle.json_base.specs.Forms.{first_named, others, read_end};
ghost use Rattle.json_base.specs.Left.{left};
ghost use Rattle.serde_json.specs.Find.{as_object};
ghost use Rattle.serde_json.specs.View.{view};

use serde_json::Value;
use std::collections::btree_map::Iter;

/// The members of an object that are left, in byte order of their names.
#[derive(Drop)]
pub struct Fields<'v> {
    pub members: Iter<'v, String, Value>,
}

impl<'v> Fields<'v> {
    /// The members of this value, if it is an object.
    pub fn of(json: &'v Value) -> Option<Fields<'v>>
        ensures { option_map left result ≡ as_object (view json.now) }
    {
        let members = json.as_object()?;
        Some(Fields {
            members: members.iter(),
        })
    }

    /// The value of the next member, if that has this name.
    pub fn next_named(&mut self, name: &str) -> Option<&'v Value>
        ensures value { option_map (λ v. view v.now) result ≡ first_named name.now (left self.old) }
        ensures rest { left self.new ≡ others (left self.old) }
    {
        let (key, value) = self.members.next()?;
        if key.as_str() == name {
            Some(value)
        } else {
            None
        }
    }

    /// Whether no member is left.
    pub fn is_end(&mut self) -> bool
        ensures { (if result then Some tt else None) ≡ read_end (left self.old) }
    {
        self.members.next().is_none()
    }
}
