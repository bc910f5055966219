ghost use Rattle.std.specs.Prelude.{◌≡◌, ◌<◌, ◌+◌, ◌-◌, ◌^◌, [], ◌∷◌, drop, IfOk, MatchOption};

use class_defs::{Block, Expr, Exprs, Stmt, Stmts};
use std::alloc::Global;
use std::marker::Model;
use thor_value::{NoMemory, TryCopy};

/// A statement of a block that has several owners, which contracts see as that statement.
#[derive(Drop)]
pub struct SharedStmt {
    block: Block,
    place: usize,
}

impl Model for SharedStmt {
    ghost use Rattle.std.specs.Prelude.{length, ◌<◌};
    ghost use Rattle.std.specs.Coded.{codes};
    ghost use Rattle.class_defs.specs.contracts.statements.Stmt as stmt;
    ghost use Rattle.class_defs.specs.declared.statements.Stmt.{Stmt};
    ghost use Rattle.lang_small_steps.specs.Placed.{stmt_at};

    ghost Value = { Stmt };

    ghost coded = { Prim.hlevel (codes, stmt.the_row.coded) };

    ghost view = { λ s. stmt_at s.block s.place };

    ghost invariant = { λ s. s.place < length s.block };
}

impl SharedStmt {
    /// A copy of a statement, which shares its parts.
    pub fn of(alloc: Global, stmt: &Stmt) -> Result<SharedStmt, NoMemory>
        ensures { IfOk result (λ made. made ≡ stmt.now) }
    {
        let mut stmts = Stmts::new(alloc);
        stmts.push(stmt.copy()?)?;
        Ok(SharedStmt {
            block: Block::new(alloc, stmts)?,
            place: 0,
        })
    }

    #[tactic(auto, using(crate::proofs::Placed::stmt_there, crate::proofs::Placed::some_there))]
    pub fn get(&self) -> &Stmt
        ensures { result.now ≡ self.now }
    {
        match self.block.get().get(self.place) {
            Some(stmt) => stmt,
            None => unreachable!(),
        }
    }
}

/// Expressions with several owners, from one of them on.
#[derive(Drop)]
pub struct SharedExprs {
    exprs: Exprs,
    from: usize,
}

impl Model for SharedExprs {
    ghost use Rattle.std.specs.Prelude.{List, drop};
    ghost use Rattle.std.specs.Coded.{codes};
    ghost use Rattle.class_defs.specs.contracts.expressions.Expr as expr;
    ghost use Rattle.class_defs.specs.declared.expressions.Expr.{Expr};

    ghost Value = { List Expr };

    ghost coded = { Prim.hlevel (codes, expr.the_row.coded) };

    ghost view = { λ e. drop e.from e.exprs };
}

impl SharedExprs {
    /// All of the expressions, as their other owner.
    pub fn of(exprs: &Exprs) -> Result<SharedExprs, NoMemory>
        ensures { IfOk result (λ made. made ≡ exprs.now) }
    {
        Ok(SharedExprs {
            exprs: exprs.share()?,
            from: 0,
        })
    }

    /// The expression at a place.
    #[tactic(auto, using(crate::proofs::Drops::dropped, crate::proofs::Drops::none_there))]
    pub fn at(exprs: &Exprs, place: usize) -> Option<&Expr>
        ensures { MatchOption result (drop place exprs.now ≡ []) (λ expr. drop place exprs.now ≡ expr.now ∷ drop (place + 1) exprs.now) }
    {
        exprs.get().get(place)
    }

    /// The expressions behind a place, as their other owner.
    pub fn behind(exprs: &Exprs, place: usize) -> Result<SharedExprs, NoMemory>
        requires { place < 2 ^ 64 - 1 }
        ensures { IfOk result (λ made. made ≡ drop (place + 1) exprs.now) }
    {
        Ok(SharedExprs {
            exprs: exprs.share()?,
            from: place + 1,
        })
    }

    /// A copy of the first, which shares its parts, with those behind it.
    #[tactic(auto, using(crate::proofs::Drops::drops))]
    pub fn split_first(self) -> Result<Option<(Expr, SharedExprs)>, NoMemory>
        ensures { IfOk result (λ split. MatchOption split (self ≡ []) (λ p. self ≡ p.0 ∷ p.1)) }
    {
        let SharedExprs { exprs, from } = self;
        let count = exprs.len();
        if from >= count {
            return Ok(None);
        }
        let first = match exprs.get().get(from) {
            Some(expr) => expr.copy()?,
            None => return Ok(None),
        };
        let rest = SharedExprs {
            exprs,
            from: from + 1,
        };
        Ok(Some((first, rest)))
    }
}

/// Statements with several owners, from one of them on.
#[derive(Drop)]
pub struct SharedBlock {
    block: Block,
    from: usize,
}

impl Model for SharedBlock {
    ghost use Rattle.std.specs.Prelude.{List, drop};
    ghost use Rattle.std.specs.Coded.{codes};
    ghost use Rattle.class_defs.specs.contracts.statements.Stmt as stmt;
    ghost use Rattle.class_defs.specs.declared.statements.Stmt.{Stmt};

    ghost Value = { List Stmt };

    ghost coded = { Prim.hlevel (codes, stmt.the_row.coded) };

    ghost view = { λ b. drop b.from b.block };
}

impl SharedBlock {
    /// All statements of a block, as their other owner.
    pub fn of(block: &Block) -> Result<SharedBlock, NoMemory>
        ensures { IfOk result (λ made. made ≡ block.now) }
    {
        Ok(SharedBlock {
            block: block.share()?,
            from: 0,
        })
    }

    /// The statement of a block at a place.
    #[tactic(auto, using(crate::proofs::Drops::dropped, crate::proofs::Drops::none_there))]
    pub fn at(block: &Block, place: usize) -> Option<&Stmt>
        ensures { MatchOption result (drop place block.now ≡ []) (λ stmt. drop place block.now ≡ stmt.now ∷ drop (place + 1) block.now) }
    {
        block.get().get(place)
    }

    /// The statements of a block behind a place, as their other owner.
    pub fn behind(block: &Block, place: usize) -> Result<SharedBlock, NoMemory>
        requires { place < 2 ^ 64 - 1 }
        ensures { IfOk result (λ made. made ≡ drop (place + 1) block.now) }
    {
        Ok(SharedBlock {
            block: block.share()?,
            from: place + 1,
        })
    }

    /// Another owner of it. It copies nothing.
    pub fn share(&self) -> Result<SharedBlock, NoMemory>
        ensures { IfOk result (λ other. other ≡ self.now) }
    {
        Ok(SharedBlock {
            block: self.block.share()?,
            from: self.from,
        })
    }

    /// The first, with those behind it.
    #[tactic(auto, using(crate::proofs::Drops::drops, crate::proofs::Placed::first_placed))]
    pub fn split_first(self) -> Result<Option<(SharedStmt, SharedBlock)>, NoMemory>
        ensures { IfOk result (λ split. MatchOption split (self ≡ []) (λ p. self ≡ p.0 ∷ p.1)) }
    {
        let SharedBlock { block, from } = self;
        if from >= block.len() {
            return Ok(None);
        }
        let first = SharedStmt {
            block: block.share()?,
            place: from,
        };
        let rest = SharedBlock {
            block,
            from: from + 1,
        };
        Ok(Some((first, rest)))
    }
}
