ghost use Rattle.std.specs.Prelude.{◌≡◌, []};
ghost use Rattle.class_defs.specs.SchemaRules.{schema_rules};

use crate::store::Schema;

/// A schema that breaks no rule T, with the number of repositories.
#[derive(Debug, Drop)]
pub struct Checked {
    pub schema: Schema,
    pub repos: u8,
    ghost sound: { schema_rules schema repos ≡ [] },
}

impl Checked {
    /// The schema as one that breaks no rule, which `method_check::check` finds out.
    pub fn new(schema: Schema, repos: u8) -> Checked
        requires { schema_rules schema repos ≡ [] }
        ensures schema { result.schema ≡ schema }
        ensures repos { result.repos ≡ repos }
    {
        Checked { schema, repos }
    }
}
