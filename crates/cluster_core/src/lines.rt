//! Lines of a serial history, by their timestamps.

ghost use Rattle.std.specs.Prelude.{IfOk, OnOk, ◌≡◌};
ghost use Rattle.thor_value.specs.FiniteMap.{empty, get, insert, remove, values};

use std::alloc::Global;
use std::collections::BTreeMap;
use std::marker::Model;
use thor_value::{NoMemory, Ts};
use top_history_check::{Line, Lines};

/// Lines by their timestamps.
#[derive(Drop)]
pub struct LineMap {
    lines: BTreeMap<Ts, Line>,
}

impl Model for LineMap {
    ghost use Rattle.thor_value.specs.FiniteMap.{Map};
    ghost use Rattle.thor_value.specs.Names.{ts_cmp};
    ghost use Rattle.top_history_check.specs.declared.assembling.Line.{Line};

    ghost Value = { Map ts_cmp Line };

    ghost view = { λ m. record { pairs = m.lines.entries } };
}

impl LineMap {
    pub fn new(alloc: Global) -> LineMap
        ensures { result ≡ empty }
    {
        LineMap {
            lines: BTreeMap::new(alloc),
        }
    }

    pub fn put(&mut self, line: Line) -> Result<(), NoMemory>
        ensures { OnOk result (self.new ≡ insert self.old line.ts line) }
    {
        self.lines.insert(line.ts, line)?;
        Ok(())
    }

    /// Takes a line out, where it is there.
    pub fn take(&mut self, ts: Ts) -> Option<Line>
        ensures line { result ≡ get self.old ts }
        ensures rest { self.new ≡ remove self.old ts }
    {
        self.lines.remove(&ts)
    }

    /// The lines by rising timestamp.
    pub fn into_lines(self, alloc: Global) -> Result<Lines, NoMemory>
        ensures { IfOk result (λ lines. lines ≡ values self) }
    {
        let LineMap { lines } = self;
        let lines: Vec<Line> = lines.into_values().collect(alloc)?;
        Ok(Lines::from_vec(lines))
    }
}

/// What the entries of repositories tell of the transactions that these coordinate.
#[derive(Drop)]
pub struct Coordinated {
    /// What is prepared and not decided, of one repository.
    pub prepared: LineMap,
    /// What has committed, of all.
    pub committed: LineMap,
}
