//! How many tries and calls a client has had of its present item.

ghost use Rattle.client_items.specs.Falling.{most_calls};
ghost use Rattle.std.specs.Prelude.{IsTrue, not, ◌≡◌, ◌+◌, ◌<◌, ◌≤◌};

/// How many tries and calls a client has had of its present item.
#[derive(Clone, Copy)]
pub struct Attempts {
    /// How many tries an item has.
    pub each: u32,
    /// How many tries of the present item have ended.
    pub tried: u32,
    /// How many calls were counted since it began or its last try ended.
    pub calls: u32,
}

impl Attempts {
    /// No try has ended, and no call was counted.
    pub fn new(each: u32) -> Attempts
        ensures { result ≡ record { each = each; tried = 0; calls = 0 } }
    {
        Attempts {
            each,
            tried: 0,
            calls: 0,
        }
    }

    /// Counts a call, where one may still be made.
    pub fn count_call(&mut self) -> bool
        ensures room { IsTrue result → self.old.calls < most_calls }
        ensures counted { IsTrue result → self.new ≡ record self.old { calls = self.old.calls + 1 } }
        ensures none { IsTrue (not result) → self.new ≡ self.old }
        ensures used_up { IsTrue (not result) → most_calls ≤ self.old.calls }
    {
        if self.calls == u32::MAX {
            return false;
        }
        self.calls += 1;
        true
    }

    /// A try has ended, and no call of the next one is counted. It answers whether the item has one left.
    pub fn begin_next_try(&mut self) -> bool
        ensures each { self.new.each ≡ self.old.each }
        ensures left { IsTrue result → self.new.tried < self.new.each }
        ensures tried { IsTrue result → self.new.tried ≡ self.old.tried + 1 }
        ensures none { IsTrue (not result) → self.new.each ≤ self.new.tried }
    {
        self.calls = 0;
        self.tried = self.tried.saturating_add(1);
        self.tried < self.each
    }

    /// An item has ended.
    pub fn begin_next_item(&mut self)
        ensures { self.new ≡ record { each = self.old.each; tried = 0; calls = 0 } }
    {
        self.tried = 0;
        self.calls = 0;
    }
}
