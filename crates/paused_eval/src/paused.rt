ghost use Rattle.std.specs.Prelude.{◌≡◌, ◌<◌, ◌+◌, ◌++◌, List, [], None, Option, Ok, IfOk, OnOk, cond, option_map};
ghost use Rattle.thor_value.specs.FiniteMap.{has};
ghost use Rattle.thor_value.specs.declared.names.Oref.{Oref};
ghost use Rattle.class_defs.specs.Run.{begun};
ghost use Rattle.class_defs.specs.declared.statements.Stmt.{Stmt};
ghost use Rattle.class_defs.specs.declared.store.Object.{Object};
ghost use Rattle.class_defs.specs.declared.store.Schema.{Schema};
ghost use Rattle.class_defs.specs.declared.machine.Flow.{Flow};
ghost use Rattle.client_cache.specs.Copies.{changed};
ghost use Rattle.client_cache.specs.Pages.{same_name};
ghost use Rattle.client_cache.specs.Slots.{dated};
ghost use Rattle.method_eval.specs.Answers.{ran_at, stored_at};
ghost use Rattle.method_eval.specs.Names.{Names, supply};
ghost use Rattle.lang_small_steps.specs.Methods.{class_methods};
ghost use Rattle.lang_small_steps.specs.Resume.{Left};
ghost use Rattle.paused_eval.specs.Copies.{Keeps, Tied, at_hand, entries, entry, last_of, state_with, written_in};
ghost use Rattle.paused_eval.specs.Counted.{surplus};
ghost use Rattle.paused_eval.specs.Standing.{AtStop, CameTo, Stands, answer_of, outcome_of};
ghost use Rattle.paused_eval.specs.Writing.{Dates, HasWritten, SameUndated};
ghost use Rattle.paused_eval.specs.declared.copies.Copies.{Copies};
ghost use Rattle.paused_eval.specs.declared.granted_names.GrantedNames.{GrantedNames};

use crate::bodies::Bodies;
use crate::came::Came;
use crate::copies::Copies;
use crate::granted_names::GrantedNames;
use crate::running::run_over;
use class_defs::{Block, Flow, Machine, NameSupply, Schema};
use client_cache::Cache;
use lang_small_steps::{CLASS_LIMIT, ClassMethods, Doing, Frame, SharedBlock, Stack};
use method_eval::{Program, Ran};
use std::alloc::Global;
use std::marker::Brand;
use std::mem;
use std::sync::ledger::{Blank, Ledger};
use thor_value::{
    Answer, Ints, NoMemory, Oref, OrefMap, OrefSet, Orefs, Sequence, StepCount, Writes,
};

/// A transaction's evaluation, as far as it has come.
#[derive(Drop)]
pub struct Paused {
    pub alloc: Global,
    /// The state of the run, without its writes and names: the copies have the objects written, and the front end
    /// the names.
    pub machine: Machine,
    pub doing: Doing,
    pub stack: Stack<Frame>,
}

/// How many frames a stack has room for from the beginning: most transactions need no more between two stops.
const FRAMES: usize = 8;

/// An object that the try has written comes behind the others, as it is written at an epoch. So it stands in the cache,
/// too.
fn push_written(
    cache: &mut Cache,
    epoch: u32,
    oref: Oref,
    writes: &mut Writes,
) -> Result<(), NoMemory>
    ensures writes { OnOk result (writes.new ≡ writes.old ++ stored_at epoch (entry oref (changed cache.old oref) [])) }
    ensures kept { Keeps cache.old cache.new }
    ensures names { cache.new.written ≡ cache.old.written }
    ensures changed { (x : Oref) → changed cache.new x ≡ cond (same_name oref x) (option_map (dated epoch) (changed cache.old oref)) (changed cache.old x) }
{
    match cache.date(oref, epoch)? {
        Some(obj) => writes.push((oref, obj)),
        None => Ok(()),
    }
}

/// The objects that the try has written, as they are written at an epoch. So they stand in the cache, too.
#[tactic(auto, using(crate::proofs::Writes::ends))]
fn writes_of(alloc: Global, cache: &mut Cache, epoch: u32) -> Result<Writes, NoMemory>
    requires { Tied cache.old }
    ensures writes { IfOk result (λ writes. writes ≡ stored_at epoch (entries (changed cache.old) cache.old.written)) }
    ensures dated { OnOk result (Dates epoch cache.old cache.new) }
    ensures same { SameUndated epoch cache.old cache.new }
    ensures names { cache.new.written ≡ cache.old.written }
    ensures kept { Keeps cache.old cache.new }
{
    let mut writes = Writes::new(alloc);
    for place in 0..usize::MAX {
        match cache.written_at(place) {
            None => return Ok(writes),
            Some(oref) => push_written(cache, epoch, oref, &mut writes)?,
        }
    }
    Err(NoMemory)
}

/// The same over copies.
#[tactic(auto, using(crate::proofs::Writes::still_tied))]
fn writes(alloc: Global, copies: &mut Copies, epoch: u32) -> Result<Writes, NoMemory>
    ensures writes { IfOk result (λ writes. writes ≡ stored_at epoch (written_in copies.old.cache).pairs) }
    ensures wrote { IfOk result (λ writes. (x : Oref) → changed copies.new.cache x ≡ last_of writes x) }
    ensures kept { Keeps copies.old.cache copies.new.cache }
{
    writes_of(alloc, &mut copies.cache, epoch)
}

/// The state in which a transaction begins.
fn begun(alloc: Global) -> Machine
    ensures { result ≡ begun [] None }
{
    Machine {
        steps: 0,
        depth: 0,
        this: None,
        locals: Sequence::new(alloc),
        reads: OrefSet::new(alloc),
        writes: OrefMap::new(alloc),
        created: Orefs::new(alloc),
        printed: Ints::new(alloc),
        names: NameSupply {
            waiting: Orefs::new(alloc),
            stand_in: None,
        },
    }
}

/// Says what is done next.
fn set_doing(place: &mut Doing, doing: Doing)
    ensures { place.new ≡ doing }
{
    *place = doing;
}

impl Paused {
    /// Before the first step. It shares the transaction's text.
    pub fn begin(alloc: Global, text: &Block) -> Result<Paused, NoMemory>
        ensures stands { IfOk result (λ paused. (s : Schema) → (copies : Copies) → (names : GrantedNames) → copies.cache.written ≡ []
            → Stands s (at_hand s copies.cache) text.now (supply names.names).waiting (record { doing = paused.doing; stack = paused.stack }) (state_with paused.machine copies.cache names.names)) }
        ensures begun { IfOk result (λ paused. paused.machine.steps ≡ 0) }
    {
        let mut stack = Stack::with_room(alloc, FRAMES)?;
        stack.push(Frame::BlockEnd { count: 0 })?;
        stack.push(Frame::Rest {
            nested: 100_001,
            rest: SharedBlock::of(text)?,
        })?;
        Ok(Paused {
            alloc,
            machine: begun(alloc),
            doing: Doing::Give { flow: Flow::Next },
            stack,
        })
    }

    /// Whether the evaluation has read an object. One that it has created counts as not read.
    pub fn has_read(&self, oref: Oref) -> bool
        ensures { result ≡ has self.now.machine.reads oref }
    {
        self.machine.reads.contains(oref)
    }

    /// Goes on from where it stopped, and answers as the transaction would from the start. `methods` are the schema's, by its
    /// classes.
    ///
    /// What the run writes goes into the copies, and what it names is given by `names`; behind a fault the caller
    /// undoes the one and resets the other. Behind an answer without a fault the copies have of each object that the run
    /// has written just what the answer lists (`wrote`). Between two calls the schema stays the same, each copy that was read or
    /// written is as it was, and names are only granted. After an answer, a fault or `NoMemory` it doesn't go on.
    pub fn go(
        &mut self,
        schema: &Schema,
        methods: &ClassMethods,
        epoch: u32,
        copies: &mut Copies,
        names: &mut GrantedNames,
    ) -> Result<Ran, NoMemory>
        requires known { methods.now ≡ class_methods schema.now.classes }
        ensures answers { (tx : List Stmt) → (given : List Oref) → Stands schema.now (at_hand schema.now copies.old.cache) tx given (record { doing = self.old.doing; stack = self.old.stack }) (state_with self.old.machine copies.old.cache names.old.names)
            → IfOk result (λ ran. ran ≡ answer_of epoch schema.now (at_hand schema.now copies.old.cache) tx given) }
        ensures stands { (tx : List Stmt) → (given : List Oref) → Stands schema.now (at_hand schema.now copies.old.cache) tx given (record { doing = self.old.doing; stack = self.old.stack }) (state_with self.old.machine copies.old.cache names.old.names)
            → IfOk result (λ ran. AtStop ran (Stands schema.now (at_hand schema.now copies.new.cache) tx given (record { doing = self.new.doing; stack = self.new.stack }) (state_with self.new.machine copies.new.cache names.new.names))) }
        ensures kept { OnOk result (Keeps copies.old.cache copies.new.cache) }
        ensures wrote { IfOk result (λ ran. HasWritten ran copies.new.cache) }
        ensures steps { (tx : List Stmt) → (given : List Oref) → Stands schema.now (at_hand schema.now copies.old.cache) tx given (record { doing = self.old.doing; stack = self.old.stack }) (state_with self.old.machine copies.old.cache names.old.names)
            → OnOk result (self.new.machine.steps ≡ (outcome_of schema.now (at_hand schema.now copies.old.cache) tx given).1.steps) }
    {
        self.go_uncounted::<Brand>(schema, methods, epoch, copies, names, Blank::new(1))
    }

    /// The same with a count of its own.
    fn go_uncounted<L: Ledger>(
        &mut self,
        schema: &Schema,
        methods: &ClassMethods,
        epoch: u32,
        copies: &mut Copies,
        names: &mut GrantedNames,
        ledger: Blank,
    ) -> Result<Ran, NoMemory>
        requires name { ledger.name ≡ L.name }
        requires parts { ledger.parts ≡ L.parts }
        requires some { 0 < ledger.parts }
        requires known { methods.now ≡ class_methods schema.now.classes }
        ensures answers { (tx : List Stmt) → (given : List Oref) → Stands schema.now (at_hand schema.now copies.old.cache) tx given (record { doing = self.old.doing; stack = self.old.stack }) (state_with self.old.machine copies.old.cache names.old.names)
            → IfOk result (λ ran. ran ≡ answer_of epoch schema.now (at_hand schema.now copies.old.cache) tx given) }
        ensures stands { (tx : List Stmt) → (given : List Oref) → Stands schema.now (at_hand schema.now copies.old.cache) tx given (record { doing = self.old.doing; stack = self.old.stack }) (state_with self.old.machine copies.old.cache names.old.names)
            → IfOk result (λ ran. AtStop ran (Stands schema.now (at_hand schema.now copies.new.cache) tx given (record { doing = self.new.doing; stack = self.new.stack }) (state_with self.new.machine copies.new.cache names.new.names))) }
        ensures kept { OnOk result (Keeps copies.old.cache copies.new.cache) }
        ensures wrote { IfOk result (λ ran. HasWritten ran copies.new.cache) }
        ensures steps { (tx : List Stmt) → (given : List Oref) → Stands schema.now (at_hand schema.now copies.old.cache) tx given (record { doing = self.old.doing; stack = self.old.stack }) (state_with self.old.machine copies.old.cache names.old.names)
            → OnOk result (self.new.machine.steps ≡ (outcome_of schema.now (at_hand schema.now copies.old.cache) tx given).1.steps) }
    {
        let work: StepCount<L> = StepCount::new(ledger);
        let (ran, work) = self.go_counted(schema, methods, epoch, copies, names, work);
        drop(work);
        ran
    }

    /// The same for a caller that counts what is evaluated. The count comes on by as many nodes as the run takes steps
    /// (`work`), and the steps that the run has taken in all are those that it takes from the start (`steps`): however
    /// often it stops, no node is evaluated twice.
    pub fn go_counted<L: Ledger>(
        &mut self,
        schema: &Schema,
        methods: &ClassMethods,
        epoch: u32,
        copies: &mut Copies,
        names: &mut GrantedNames,
        work: StepCount<L>,
    ) -> (Result<Ran, NoMemory>, StepCount<L>)
        requires known { methods.now ≡ class_methods schema.now.classes }
        ensures answers { (tx : List Stmt) → (given : List Oref) → Stands schema.now (at_hand schema.now copies.old.cache) tx given (record { doing = self.old.doing; stack = self.old.stack }) (state_with self.old.machine copies.old.cache names.old.names)
            → IfOk result.0 (λ ran. ran ≡ answer_of epoch schema.now (at_hand schema.now copies.old.cache) tx given) }
        ensures stands { (tx : List Stmt) → (given : List Oref) → Stands schema.now (at_hand schema.now copies.old.cache) tx given (record { doing = self.old.doing; stack = self.old.stack }) (state_with self.old.machine copies.old.cache names.old.names)
            → IfOk result.0 (λ ran. AtStop ran (Stands schema.now (at_hand schema.now copies.new.cache) tx given (record { doing = self.new.doing; stack = self.new.stack }) (state_with self.new.machine copies.new.cache names.new.names))) }
        ensures kept { OnOk result.0 (Keeps copies.old.cache copies.new.cache) }
        ensures wrote { IfOk result.0 (λ ran. HasWritten ran copies.new.cache) }
        ensures steps { (tx : List Stmt) → (given : List Oref) → Stands schema.now (at_hand schema.now copies.old.cache) tx given (record { doing = self.old.doing; stack = self.old.stack }) (state_with self.old.machine copies.old.cache names.old.names)
            → OnOk result.0 (self.new.machine.steps ≡ (outcome_of schema.now (at_hand schema.now copies.old.cache) tx given).1.steps) }
        ensures work { OnOk result.0 (result.1 + self.old.machine.steps ≡ work + self.new.machine.steps) }
    {
        let mut bodies = Bodies { methods, work };
        let ran = self.go_with(schema, epoch, copies, names, &mut bodies);
        let Bodies { methods: _, work } = bodies;
        (ran, work)
    }

    /// The same with bodies of methods that are the schema's.
    fn go_with<L: Ledger>(
        &mut self,
        schema: &Schema,
        epoch: u32,
        copies: &mut Copies,
        names: &mut GrantedNames,
        bodies: &mut Bodies<'_, L>,
    ) -> Result<Ran, NoMemory>
        requires known { bodies.old.methods.now ≡ class_methods schema.now.classes }
        ensures answers { (tx : List Stmt) → (given : List Oref) → Stands schema.now (at_hand schema.now copies.old.cache) tx given (record { doing = self.old.doing; stack = self.old.stack }) (state_with self.old.machine copies.old.cache names.old.names)
            → IfOk result (λ ran. ran ≡ answer_of epoch schema.now (at_hand schema.now copies.old.cache) tx given) }
        ensures stands { (tx : List Stmt) → (given : List Oref) → Stands schema.now (at_hand schema.now copies.old.cache) tx given (record { doing = self.old.doing; stack = self.old.stack }) (state_with self.old.machine copies.old.cache names.old.names)
            → IfOk result (λ ran. AtStop ran (Stands schema.now (at_hand schema.now copies.new.cache) tx given (record { doing = self.new.doing; stack = self.new.stack }) (state_with self.new.machine copies.new.cache names.new.names))) }
        ensures kept { OnOk result (Keeps copies.old.cache copies.new.cache) }
        ensures wrote { IfOk result (λ ran. HasWritten ran copies.new.cache) }
        ensures steps { (tx : List Stmt) → (given : List Oref) → Stands schema.now (at_hand schema.now copies.old.cache) tx given (record { doing = self.old.doing; stack = self.old.stack }) (state_with self.old.machine copies.old.cache names.old.names)
            → OnOk result (self.new.machine.steps ≡ (outcome_of schema.now (at_hand schema.now copies.old.cache) tx given).1.steps) }
        ensures work { OnOk result (surplus bodies.new.work self.new.machine.steps ≡ surplus bodies.old.work self.old.machine.steps) }
    {
        if schema.classes.len() > CLASS_LIMIT {
            return Err(NoMemory);
        }
        let program = Program {
            alloc: self.alloc,
            schema,
        };
        let doing = mem::replace(&mut self.doing, Doing::Give { flow: Flow::Next });
        let (came, doing) = run_over(
            &program,
            epoch,
            &mut copies.cache,
            &mut names.names,
            &mut self.machine,
            bodies,
            &mut self.stack,
            doing,
        )?;
        set_doing(&mut self.doing, doing);
        Paused::answer(self.alloc, &mut self.machine, copies, epoch, came)
    }

    /// What it answers that has ended. What it has read, made and printed goes into the answer.
    fn done(
        alloc: Global,
        machine: &mut Machine,
        copies: &mut Copies,
        epoch: u32,
    ) -> Result<Ran, NoMemory>
        ensures answers { (names : Names) → (flow : Flow) → IfOk result (λ ran. ran ≡ ran_at epoch (Ok flow) (state_with machine.old copies.old.cache names)) }
        ensures steps { machine.new.steps ≡ machine.old.steps }
        ensures wrote { IfOk result (λ ran. HasWritten ran copies.new.cache) }
        ensures kept { Keeps copies.old.cache copies.new.cache }
    {
        let writes = writes(alloc, copies, epoch)?;
        let reads = mem::replace(&mut machine.reads, OrefSet::new(alloc));
        let printed = mem::replace(&mut machine.printed, Ints::new(alloc));
        let fresh = mem::replace(&mut machine.created, Orefs::new(alloc));
        Ok(Ran::Done {
            answer: Answer::Ints(printed),
            reads: reads.into_names(),
            writes,
            fresh,
        })
    }

    /// What it answers that has come to an end or a stop. Behind an end the machine has no more what it has read.
    fn answer(
        alloc: Global,
        machine: &mut Machine,
        copies: &mut Copies,
        epoch: u32,
        came: Came,
    ) -> Result<Ran, NoMemory>
        ensures answers { (s : Schema) → (f : Oref → Option Object) → (tx : List Stmt) → (given : List Oref) → (l : Left) → (names : Names)
            → CameTo s f tx given came l (state_with machine.old copies.old.cache names)
            → IfOk result (λ ran. ran ≡ answer_of epoch s f tx given) }
        ensures stands { (s : Schema) → (f : Oref → Option Object) → (tx : List Stmt) → (given : List Oref) → (l : Left) → (names : Names)
            → CameTo s f tx given came l (state_with machine.old copies.old.cache names)
            → IfOk result (λ ran. AtStop ran (Stands s f tx given l (state_with machine.new copies.new.cache names))) }
        ensures steps { machine.new.steps ≡ machine.old.steps }
        ensures wrote { IfOk result (λ ran. HasWritten ran copies.new.cache) }
        ensures kept { Keeps copies.old.cache copies.new.cache }
    {
        match came {
            Came::Ended => Paused::done(alloc, machine, copies, epoch),
            Came::Faulted { fault } => {
                let reads = mem::replace(&mut machine.reads, OrefSet::new(alloc));
                Ok(Ran::Done {
                    answer: Answer::Fault(fault),
                    reads: reads.into_names(),
                    writes: Writes::new(alloc),
                    fresh: Orefs::new(alloc),
                })
            }
            Came::Waits { oref, owners } => Ok(Ran::Need { oref, owners }),
            Came::WaitsForName { repo } => Ok(Ran::NeedName { repo }),
        }
    }
}
