//! A transform: a transaction of its own that brings one due object to the client's epoch.

ghost use Rattle.client_state.specs.Drawing.{drawn_by};
ghost use Rattle.client_state.specs.Reading.{has_looked_at};
ghost use Rattle.client_state.specs.Sending.{transform_of};
ghost use Rattle.std.specs.Prelude.{IfErr, IfOk, None, Some, [], ◌∷◌, ◌≡◌};

use class_defs::Schemas;
use lazy_transform::bring;
use log_entries::{Kind, Request};
use method_eval::{Names, View};
use session_outbox::At;
use std::alloc::Global;
use std::mem;
use thor_value::{
    Answer, NoMemory, Obj, Oref, OrefMap, OrefSet, Orefs, Sequence, TryCopy, Ts, Who,
};

/// A due object, and what its transform functions have looked at so far.
#[derive(Drop)]
pub struct Transform {
    pub oref: Oref,
    pub obj: Obj,
    /// The owners of the object, nearest first.
    pub owners: Orefs,
    /// The parts that were looked at, as they are stored.
    pub parts: View,
    pub stage: Stage,
}

/// How far a transform has come.
#[derive(Drop)]
pub enum Stage {
    /// It collects the parts that it reads. The page of this one was asked for.
    Collecting { awaited: Option<Oref> },
    /// It is drawn, and is to be committed next.
    Drawn { ts: Ts, becomes: Becomes },
}

/// What a due object becomes.
#[derive(Drop)]
pub struct Becomes {
    pub oref: Oref,
    /// What the transform has read, rising.
    pub ros: Orefs,
    pub made: Obj,
}

impl Transform {
    /// Nothing but the object was looked at.
    pub fn begun(alloc: Global, oref: Oref, obj: Obj, owners: Orefs, epoch: u32) -> Transform
        ensures { drawn_by result.stage ≡ None }
    {
        Transform {
            oref,
            obj,
            owners,
            parts: View {
                objects: OrefMap::new(alloc),
                names: Names::new(alloc),
                epoch,
            },
            stage: Stage::Collecting { awaited: None },
        }
    }

    /// The page of a part is asked for.
    pub fn await_page(&mut self, part: Oref)
        ensures { drawn_by self.new.stage ≡ None }
    {
        self.set_stage(Stage::Collecting {
            awaited: Some(part),
        });
    }

    /// It is drawn.
    pub fn draw(&mut self, ts: Ts, becomes: Becomes)
        ensures { drawn_by self.new.stage ≡ Some ts }
    {
        self.set_stage(Stage::Drawn { ts, becomes });
    }

    fn set_stage(&mut self, stage: Stage)
        ensures { self.new ≡ record self.old { stage = stage } }
    {
        drop(mem::replace(&mut self.stage, stage));
    }

    /// Its timestamp and what the object becomes, where it is drawn; else it is handed back.
    pub fn into_drawn(self) -> Result<(Ts, Becomes), Transform>
        ensures timestamp { IfOk result (λ drawn. drawn_by self.stage ≡ Some drawn.0) }
        ensures undrawn { IfErr result (λ transform. drawn_by transform.stage ≡ None) }
    {
        let Transform {
            oref,
            obj,
            owners,
            parts,
            stage,
        } = self;
        match stage {
            Stage::Drawn { ts, becomes } => Ok((ts, becomes)),
            stage => Err(Transform {
                oref,
                obj,
                owners,
                parts,
                stage,
            }),
        }
    }

    /// Whether it has looked at an object.
    pub fn has_looked_at(&self, oref: Oref) -> bool
        ensures { result ≡ has_looked_at self.now oref }
    {
        self.oref == oref || self.parts.objects.contains(oref)
    }

    /// What the object becomes, where these parts were wanted and all were looked at.
    pub fn becomes(
        &self,
        alloc: Global,
        schemas: &Schemas,
        parts: &Orefs,
    ) -> Result<Becomes, NoMemory> {
        let made = bring(alloc, &self.obj, &self.parts, schemas, self.parts.epoch)?;
        let ros = self.ros(alloc, parts)?;
        Ok(Becomes {
            oref: self.oref,
            ros,
            made,
        })
    }

    /// What it reads in the object's repository, rising: the object, the parts that were wanted, and
    /// the owners.
    fn ros(&self, alloc: Global, parts: &Orefs) -> Result<Orefs, NoMemory> {
        let mut names = OrefSet::new(alloc);
        names.insert(self.oref)?;
        insert_of(&mut names, self.oref.repo, parts)?;
        insert_of(&mut names, self.oref.repo, &self.owners)?;
        Ok(names.into_names())
    }
}

fn insert_of(names: &mut OrefSet, repo: u8, orefs: &Orefs) -> Result<(), NoMemory> {
    for oref in orefs.as_slice() {
        if oref.repo == repo {
            names.insert(*oref)?;
        }
    }
    Ok(())
}

/// The request of a transform, and what its object becomes.
pub fn transform_request(
    alloc: Global,
    client: u8,
    at: At,
    upto: u64,
    ts: Ts,
    becomes: Becomes,
) -> Result<(Request, Obj), NoMemory>
    ensures tx { IfOk result (λ made. made.0.tx ≡ ts) }
    ensures session { IfOk result (λ made. made.0.session ≡ at.session) }
    ensures upto { IfOk result (λ made. made.0.upto ≡ upto) }
    ensures writes { IfOk result (λ made. made.0.writes ≡ (becomes.oref, made.1) ∷ []) }
    ensures all { IfOk result (λ made. made.0 ≡ transform_of client at.session upto ts becomes.oref becomes.made becomes.ros) }
    ensures made { IfOk result (λ made. made.1 ≡ becomes.made) }
{
    let Becomes { oref, ros, made } = becomes;
    let mut writes = Sequence::new(alloc);
    writes.push((oref, made.copy()?))?;
    let request = Request {
        tx: ts,
        who: Who { client, index: 0 },
        session: at.session,
        kind: Kind::Transform,
        epoch: made.ver,
        upto,
        ros,
        writes,
        fresh: Orefs::new(alloc),
        answer: Answer::Ints(Sequence::new(alloc)),
        others: Sequence::new(alloc),
    };
    Ok((request, made))
}
