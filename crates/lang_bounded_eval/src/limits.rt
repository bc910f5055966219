use lang_small_steps::RECURSION_LIMIT;

/// How deep nodes may stand inside one another in a transaction: each takes a step, so none stands deeper than there are steps.
pub const NESTED_LIMIT: u32 = 100_001;

/// How deep nodes may still stand inside one another where plain recursion ends, and small steps begin.
pub const RECURSION_END: u32 = NESTED_LIMIT - RECURSION_LIMIT;
