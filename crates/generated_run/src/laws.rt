//! What holds of the definitions, as the contract of a call that does nothing.
ghost use Rattle.std.specs.Prelude.{◌≡◌, ℕ, List};
ghost use Rattle.std.specs.Int.{IsInRange};
ghost use Rattle.flow_base.specs.Program.{Bytes, Program};
ghost use Rattle.script_run.specs.beside.specs.Uses.{LaneUse};
ghost use Rattle.generated_run.specs.Run.{IsGeneratedRun};

/// For each number of modules that may be made up, each number of lanes and each seed there is a run, and one only.
pub fn one_generated_run()
    ensures some { (most lanes n seed : ℕ) → IsInRange 1 4096 n →
        (printed : Bytes) × (program : Program) × (version : ℕ) × (uses : List LaneUse) × IsGeneratedRun most lanes n seed printed program version uses }
    ensures one { (most lanes n seed : ℕ) (p q : Bytes) (a b : Program) (v w : ℕ) (x y : List LaneUse) →
        IsGeneratedRun most lanes n seed p a v x → IsGeneratedRun most lanes n seed q b w y → (p ≡ q) × (a ≡ b) × (v ≡ w) × (x ≡ y) }
{
    script_run::affected_sizes::each_edit_has_sizes();
    script_run::affected_sizes::one_size_each();
    program_check::one_full();
}
