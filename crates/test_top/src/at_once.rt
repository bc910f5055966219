//! Clients that run on threads are beside one another, and so are repositories behind their locks.

use crate::running::{Asked, run};
use outside::Gate;
use std::sync::atomic::AtomicU64;
use std::sync::atomic::Ordering::SeqCst;
use std::test::Fail;
use thor_top::Status;

/// How often one that is held looks whether it may go on.
const TURNS: u64 = 500_000_000;

/// Holds whoever comes to a point, until two other points were passed, one behind the other.
#[derive(Drop)]
struct Hold {
    held: u32,
    first: u32,
    second: u32,
    /// How many of the two were passed.
    passed: AtomicU64,
    /// How many were held in vain.
    in_vain: AtomicU64,
}

impl Hold {
    fn at(held: u32, first: u32, second: u32) -> Hold {
        Hold {
            held,
            first,
            second,
            passed: AtomicU64::new(0),
            in_vain: AtomicU64::new(0),
        }
    }

    fn wait(&self) {
        for _ in 0..TURNS {
            if self.passed.load(SeqCst) == 2 {
                return;
            }
        }
        self.in_vain.fetch_add(1, SeqCst);
    }
}

impl Gate for Hold {
    fn pass(&self, point: u32) {
        if point == self.held {
            self.wait();
        }
        let passed = self.passed.load(SeqCst);
        if point == self.first && passed == 0 {
            self.passed.store(1, SeqCst);
        }
        if point == self.second && passed == 1 {
            self.passed.store(2, SeqCst);
        }
    }

    fn begin_run(&self, _items: usize) {}

    fn end_items(&self, _count: usize) {}

    fn find_unsound(&self) {}

    fn find_changed(&self) {}
}

/// Two clients, each with an object at a repository of its own.
const TWO: Asked<'static> = Asked {
    words: &[b"run", b"--repos", b"2"],
    script: b"setup
free class Box { int n; method int add(int k) { this.n = this.n + k; return this.n; } }
root a = new Box() at 0;
root b = new Box() at 1;
client 1 tx { print a.add(1); } tx { print a.add(1); }
client 2 tx { print b.add(1); } tx { print b.add(1); }
",
    repos: 2,
};

#[test]
fn two_clients_inside(rt: HostRuntime) -> Result<(), Fail> {
    let hold = Hold::at(2, 4, 5);
    let status = run(&rt, rt.alloc(), &hold, &TWO)?;
    assert!(rt; status == Status::Done);
    assert!(rt; hold.in_vain.load(SeqCst) == 0);
    Ok(())
}

#[test]
fn two_locks(rt: HostRuntime) -> Result<(), Fail> {
    let hold = Hold::at(1_000, 1_001, 5);
    let status = run(&rt, rt.alloc(), &hold, &TWO)?;
    assert!(rt; status == Status::Done);
    assert!(rt; hold.in_vain.load(SeqCst) == 0);
    Ok(())
}
