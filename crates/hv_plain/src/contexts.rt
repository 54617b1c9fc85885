//! The variable of a context among all of them.

ghost use Rattle.std.specs.Prelude.{◌≡◌};
ghost use Rattle.hv_entropy_model.specs.Contexts.{variable_at, with_variable};

use crate::variables::Variable;
use hv_tables::{Ctx, context_place};

/// The variable of a context; pStateIdx 0 and valMps 0 where no variable has its place.
pub fn variable_at(variables: &Vec<Variable>, context: Ctx) -> Variable
    ensures { result ≡ variable_at variables.now.items context }
{
    let at = context_place(context);
    if at < variables.len() {
        variables[at]
    } else {
        Variable::none()
    }
}

/// Puts the variable of a context; nothing where no variable has its place.
pub fn put_variable(variables: &mut Vec<Variable>, context: Ctx, variable: Variable)
    ensures { variables.new.items ≡ with_variable variables.old.items context variable }
{
    let at = context_place(context);
    if at < variables.len() {
        variables[at] = variable;
    }
}
