//! Worked rows of the counts that disks have: those that stand at their greatest stay there.

ghost use Rattle.std.specs.Prelude.{◌≡◌, ◌-◌, ◌^◌, ◌∷◌, [], ℕ, true, false};
ghost use Rattle.disk_trait.specs.Counts.{counted};
ghost use Rattle.disk_trait.specs.Fuse.{burnt};
ghost use Rattle.disk_trait.specs.Fused.{fell_of};

/// Calls of disks over files, of which the second has as many faults as a count can tell.
fn faults()
    ensures failed { counted (record { time = 2 ^ 64 - 1; faults = 0 ∷ (2 ^ 64 - 1) ∷ 3 ∷ [] }) 1 true ≡ record { time = 2 ^ 64 - 1; faults = 0 ∷ (2 ^ 64 - 1) ∷ 3 ∷ [] } }
    ensures another { counted (record { time = 7; faults = 0 ∷ (2 ^ 64 - 1) ∷ 3 ∷ [] }) 2 true ≡ record { time = 8; faults = 0 ∷ (2 ^ 64 - 1) ∷ 4 ∷ [] } }
    ensures answered { counted (record { time = 2 ^ 64 - 1; faults = 0 ∷ (2 ^ 64 - 1) ∷ 3 ∷ [] }) 1 false ≡ record { time = 2 ^ 64 - 1; faults = 0 ∷ (2 ^ 64 - 1) ∷ 3 ∷ [] } }
{}

/// A stop that falls where it fell as often as a count can tell.
fn falls()
    ensures fallen { burnt (record { left = 1; falls = 0 ∷ (2 ^ 64 - 1) ∷ 3 ∷ [] }) 1 ≡ record { left = 0; falls = 0 ∷ (2 ^ 64 - 1) ∷ 3 ∷ [] } }
    ensures another { burnt (record { left = 1; falls = 0 ∷ (2 ^ 64 - 1) ∷ 3 ∷ [] }) 2 ≡ record { left = 0; falls = 0 ∷ (2 ^ 64 - 1) ∷ 4 ∷ [] } }
    ensures told { fell_of {P = ℕ} (record { parts = 0; fuse = record { left = 0; falls = (2 ^ 64 - 1) ∷ (2 ^ 64 - 1) ∷ 3 ∷ [] } }) ≡ 2 ^ 64 - 1 }
{}

#[test]
fn worked_rows_of_counts() {
    faults();
    falls();
}
