//! What small steps keep. Each law is a function with an empty body, whose clauses are proved once.

ghost use Rattle.std.specs.List.{AllByRecursion, IsDistinct};
ghost use Rattle.std.specs.Prelude.{◌≡◌, ◌<◌, ◌==◌, [], List, None, Option, Result, Some, Ok, Err, false};
ghost use Rattle.thor_value.specs.Names.{same_oref};
ghost use Rattle.thor_value.specs.declared.names.Oref.{Oref};
ghost use Rattle.lang_small_steps.specs.Due.{IsOpen, due};
ghost use Rattle.lang_small_steps.specs.Naming.{HadNames, with_names};
ghost use Rattle.lang_small_steps.specs.Reaches.{Agree, Begins, Reaches, granted, over};
ghost use Rattle.lang_small_steps.specs.Resume.{Left, after_one, move, rest_of};
ghost use Rattle.lang_small_steps.specs.declared.frames.Doing.TheVariants as doing;
ghost use Rattle.class_defs.specs.Run.{begun, execute_all};
ghost use Rattle.class_defs.specs.Steps.{World};
ghost use Rattle.class_defs.specs.declared.machine.Flow.{Flow};
ghost use Rattle.class_defs.specs.declared.machine.Machine.{Machine};
ghost use Rattle.class_defs.specs.declared.machine.Stop.{Stop};
ghost use Rattle.class_defs.specs.declared.statements.Stmt.{Stmt};
ghost use Rattle.class_defs.specs.declared.store.Object.{Object};
ghost use Rattle.class_defs.specs.declared.store.Schema.{Schema};

/// A small step leaves what is left of a run, as an action, the same.
pub fn a_small_step_keeps_what_is_left()
    ensures { (w : World) → (l : Left) → rest_of w l ≡ after_one w l }
{}

/// A run of small steps comes, over any objects among which those that it read are as they were and with any more
/// names, to what the transaction comes to from the start.
pub fn small_steps_reach_what_is_left()
    ensures begins { (s : Schema) → (f : Oref → Option Object) → (tx : List Stmt) → (names : List Oref) → Begins s f tx names }
    ensures goes_on { (s : Schema) → (f : Oref → Option Object) → (a : Left) → (b : Left) → (c : Left) → (m : Machine) → (n : Machine) → (o : Machine)
        → Reaches s f a m b n → move (over s f) b.doing b.stack n ≡ (Ok c, o) → Reaches s f a m c o }
    ensures ends { (s : Schema) → (f : Oref → Option Object) → (a : Left) → (m : Machine) → (n : Machine) → (g : Flow)
        → Reaches s f a m (record { doing = doing.Give g; stack = [] }) n → rest_of (over s f) a m ≡ (Ok g, n) }
    ensures stops { (s : Schema) → (f : Oref → Option Object) → (a : Left) → (b : Left) → (m : Machine) → (n : Machine) → (o : Machine) → (t : Stop)
        → Reaches s f a m b n → move (over s f) b.doing b.stack n ≡ (Err t, o) → rest_of (over s f) a m ≡ (Err t, o) }
{}

/// Between two runs of small steps other objects than those that were read may come and go, and names may be granted.
pub fn what_is_left_goes_on_later()
    ensures objects { (s : Schema) → (f : Oref → Option Object) → (g : Oref → Option Object) → (a : Left) → (b : Left) → (m : Machine) → (n : Machine)
        → Reaches s f a m b n → Agree f g n → Reaches s g a m b n }
    ensures names { (s : Schema) → (f : Oref → Option Object) → (new : List Oref) → (a : Left) → (b : Left) → (m : Machine) → (n : Machine)
        → Reaches s f a m b n → Reaches s f a (granted new m) b (granted new n) }
{}

/// A small step leaves fewer small steps to do.
pub fn a_small_step_leaves_fewer()
    ensures { (w : World) → (a : Left) → (b : Left) → (m : Machine) → (n : Machine) → IsOpen a.doing a.stack
        → move w a.doing a.stack m ≡ (Ok b, n) → due n b < due m a }
{}

/// A run over just the names that it took goes as it went over all that were granted.
pub fn names_taken_are_enough()
    ensures { (w : World) → (tx : List Stmt) → (given : List Oref) → (r : Result Flow Stop) → (n : Machine)
        → execute_all w tx (begun given None) ≡ (r, n) → HadNames r → execute_all w tx (begun n.created (Some 0)) ≡ (r, with_names [] n) }
{}

/// The names that new objects take are distinct where those that were granted are, and none of those is a stand-in name.
pub fn names_taken_are_distinct()
    ensures { (w : World) → (tx : List Stmt) → (given : List Oref) → (r : Result Flow Stop) → (n : Machine)
        → IsDistinct same_oref given → AllByRecursion (λ (x : Oref). (x.repo == 255) ≡ false) given
        → execute_all w tx (begun given None) ≡ (r, n) → IsDistinct same_oref n.created }
{}
