//! How an evaluation and a transform go on over what is held.

ghost use Rattle.class_defs.specs.declared.statements.Stmt.{Stmt};
ghost use Rattle.client_state.specs.Evaluating.{HeldStands, held_answer, schema_in};
ghost use Rattle.client_state.specs.Learning.{KeepsBounds};
ghost use Rattle.client_state.specs.Moving.{HoldsSame};
ghost use Rattle.client_cache.specs.Copies.{changed};
ghost use Rattle.client_state.specs.Writing.{WritesShares, shares_write};
ghost use Rattle.lang_small_steps.specs.Methods.{class_methods};
ghost use Rattle.paused_eval.specs.Copies.{last_of};
ghost use Rattle.paused_eval.specs.Standing.{AtStop};
ghost use Rattle.paused_eval.specs.Writing.{HasWritten, WrittenBy};
ghost use Rattle.std.specs.Prelude.{IfOk, List, OnOk, ◌≡◌};
ghost use Rattle.thor_value.specs.declared.names.Oref.{Oref};
ghost use Rattle.thor_value.specs.declared.values.Obj.{Obj};

use crate::held::Held;
use crate::transaction::Transaction;
use crate::transform::Transform;
use class_defs::{Block, Schema};
use client_items::Opened;
use lang_small_steps::ClassMethods;
use lang_upgrade_eval::schema_at;
use lazy_transform::{Wanted, wants};
use method_eval::Ran;
use paused_eval::Paused;
use thor_value::{Answer, NoMemory, Oref, Orefs, Writes};

/// The schema of an epoch, with its methods; the first one where the store has none for it.
#[tactic(auto, using(crate::proofs::Schemas::are_its_methods, crate::proofs::Schemas::both_chosen, crate::proofs::Schemas::no_methods, crate::proofs::Schemas::no_schema))]
fn schema_of(opened: &Opened, epoch: u32) -> (&Schema, &ClassMethods)
    ensures methods { result.1.now ≡ class_methods result.0.now.classes }
    ensures which { result.0.now ≡ schema_in opened.now epoch }
{
    match schema_at(&opened.schemas, epoch) {
        Some(schema) => match opened.methods.at(epoch) {
            Some(methods) => (schema, methods),
            None => (&opened.schemas.first, &opened.methods.first),
        },
        None => (&opened.schemas.first, &opened.methods.first),
    }
}

impl Held {
    /// Evaluates as far as the copies allow.
    pub fn evaluate(&mut self, opened: &Opened, run: &mut Paused) -> Result<Ran, NoMemory>
        ensures same { OnOk result (HoldsSame self.old self.new) }
        ensures wrote { IfOk result (λ ran. HasWritten ran self.new.cache.cache) }
        ensures answers { (tx : List Stmt) (given : List Oref) → HeldStands opened.now self.old run.old tx given → IfOk result (λ ran. ran ≡ held_answer opened.now self.old tx given) }
        ensures stands { (tx : List Stmt) (given : List Oref) → HeldStands opened.now self.old run.old tx given → IfOk result (λ ran. AtStop ran (HeldStands opened.now self.new run.new tx given)) }
        ensures bounds { KeepsBounds self.old self.new }
    {
        let epoch = self.epoch(opened);
        let (schema, methods) = schema_of(opened, epoch);
        run.go(schema, methods, epoch, &mut self.cache, &mut self.names)
    }

    /// The evaluation of a transaction before its first step.
    pub fn begin(&self, text: &Block) -> Result<Paused, NoMemory> {
        Paused::begin(self.alloc, text)
    }

    /// The transaction of an evaluation that has ended. What a fault has changed is given up.
    #[tactic(auto, using(crate::proofs::Writing::of_shares))]
    pub fn evaluated(
        &mut self,
        opened: &Opened,
        answer: Answer,
        reads: Orefs,
        writes: Writes,
        fresh: Orefs,
    ) -> Result<Transaction, NoMemory>
        ensures same { HoldsSame self.old self.new }
        ensures writes { IfOk result (λ made. (x : Oref) → shares_write made.shares.items x ≡ last_of writes x) }
        ensures wrote { IfOk result (λ made. WrittenBy answer writes self.old.cache.cache → WritesShares made.shares.items self.new.cache.cache) }
        ensures bounds { KeepsBounds self.old self.new }
    {
        self.undo_fault(&answer);
        Transaction::evaluated(answer, self.epoch(opened), reads, writes, fresh)
    }

    /// What a fault has changed is given up.
    #[tactic(auto, using(crate::proofs::Writing::fault_undone, crate::proofs::Writing::stays_written))]
    fn undo_fault(&mut self, answer: &Answer)
        ensures same { HoldsSame self.old self.new }
        ensures wrote { (writes : List (Oref × Obj)) → WrittenBy answer.now writes self.old.cache.cache → (x : Oref) → changed self.new.cache.cache x ≡ last_of writes x }
        ensures bounds { KeepsBounds self.old self.new }
    {
        match answer {
            Answer::Ints(_) => {}
            Answer::Fault(_) => self.undo(),
        }
    }

    /// Looks at the parts that a transform wants and that are held. It answers all that it reads, or the
    /// first part that isn't held.
    pub fn collect(
        &mut self,
        opened: &Opened,
        transform: &mut Transform,
    ) -> Result<Wanted, NoMemory>
        ensures same { HoldsSame self.old self.new }
        ensures bounds { KeepsBounds self.old self.new }
        ensures stage { transform.new.stage ≡ transform.old.stage }
    {
        for _ in 0..u64::MAX {
            let epoch = transform.parts.epoch;
            match wants(
                self.alloc,
                &transform.obj,
                &opened.schemas,
                epoch,
                &transform.parts,
            )? {
                Wanted::All(reads) => return Ok(Wanted::All(reads)),
                Wanted::Part(part) => {
                    if !self.look_at(transform, part)? {
                        return Ok(Wanted::Part(part));
                    }
                }
            }
        }
        Err(NoMemory)
    }

    /// Looks at a part, where it is held, and answers whether it is.
    fn look_at(&mut self, transform: &mut Transform, part: Oref) -> Result<bool, NoMemory>
        ensures same { HoldsSame self.old self.new }
        ensures bounds { KeepsBounds self.old self.new }
        ensures stage { transform.new.stage ≡ transform.old.stage }
    {
        match self.copy_of(part)? {
            Some(obj) => {
                self.cache.bring_forward(part);
                transform.parts.objects.insert(part, obj)?;
                Ok(true)
            }
            None => Ok(false),
        }
    }
}
