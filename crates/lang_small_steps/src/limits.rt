/// How many nodes an evaluation opens inside one another by plain recursion at most. Each takes 2.3 KB of a thread's stack at
/// most, so that so many fit three times into the smallest one, 2 MB (`checks/deep`). What stands deeper is evaluated by small
/// steps over a stack on the heap.
pub const RECURSION_LIMIT: u32 = 256;
