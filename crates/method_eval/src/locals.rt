ghost use Rattle.std.specs.Prelude.{◌≡◌, ◌<◌, length, position, IfSome, OnOk, slice_get};
ghost use Rattle.std.specs.Str.{bytes_eq};
ghost use Rattle.class_defs.specs.Statements.{assigned, declare, holds, with_value};

use class_defs::{ExprType, Local, Locals, Machine, number};
use thor_value::{NoMemory, Value, Word};

/// Whether a condition holds.
pub fn holds(value: Value) -> bool
    ensures { result ≡ holds value }
{
    number(value) != 0
}

fn local_place(locals: &Locals, name: &Word) -> Option<usize>
    ensures place { result ≡ position (λ l. bytes_eq l.name name.now) locals.now }
    ensures within { IfSome result (λ place. place < length locals.now) }
{
    locals
        .as_slice()
        .iter()
        .position(|local| local.name.is(name))
}

/// Gives the local or parameter with this name another value.
#[tactic(auto, unfolding(class_defs::specs::Statements::assigned))]
pub fn assign_local(locals: &mut Locals, name: &Word, value: Value)
    ensures { locals.new ≡ assigned locals.old name.now value }
{
    if let Some(place) = local_place(locals, name) {
        set_value(locals, place, value);
    }
}

fn set_value(locals: &mut Locals, place: usize, value: Value)
    requires { place < length locals.old }
    ensures { locals.new ≡ with_value locals.old place (slice_get locals.old place) value }
{
    let hole = Local {
        name: Word::empty(),
        kind: ExprType::Untold,
        value: Value::Null,
    };
    let held = locals.replace(place, hole);
    let Local {
        name,
        kind,
        value: _,
    } = held;
    locals.set(place, Local { name, kind, value });
}

/// A local from behind its `var` statement on.
pub fn declare(
    machine: &mut Machine,
    kind: ExprType,
    name: &Word,
    value: Value,
) -> Result<(), NoMemory>
    ensures { OnOk result (machine.new ≡ declare kind name.now value machine.old) }
{
    machine.locals.push(Local {
        name: *name,
        kind,
        value,
    })
}
