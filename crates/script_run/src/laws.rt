//! What holds of the definitions, as the contracts of calls that do nothing.
ghost use Rattle.std.specs.Prelude.{◌≡◌, ℕ, List, Option};
ghost use Rattle.flow_base.specs.Program.{Bytes, Program};
ghost use Rattle.beside.specs.Uses.{LaneUse};
ghost use Rattle.script_run.specs.Transcript.{IsRunSoFar, GoesOn, IsQuietRun, AsksNothingBeside};
ghost use Rattle.script_run.specs.declared.ending.WalkEnd.{WalkEnd};

/// What a run printed up to a line of the script goes on to what a whole run prints, with no further
/// read fault.
pub fn a_front_goes_on()
    ensures { (most lanes : ℕ) (told : Option Program) (listed : List Bytes) (script : Option (List Bytes)) (faults : ℕ) (printed : Bytes) →
        IsRunSoFar most lanes told listed script faults printed → GoesOn most lanes told listed script faults printed }
{
    beside::affected_sizes::each_edit_has_sizes();
    beside::answers_law::each_has_answer();
}

/// Where the folder and the script tell their content, there is a run without a read fault. Any two
/// of them end in one way, with one program at one version, and where nothing is asked beside a
/// recheck there is one only.
pub fn one_quiet_run()
    ensures some { (most lanes : ℕ) (folder : Program) (listed script : List Bytes) →
        (printed : Bytes) × (how : WalkEnd) × (program : Program) × (version : ℕ) × (uses : List LaneUse) × IsQuietRun most lanes folder listed script printed how program version uses }
    ensures one_end { (most lanes : ℕ) (folder : Program) (listed script : List Bytes) (p q : Bytes) (h k : WalkEnd) (a b : Program) (v w : ℕ) (x y : List LaneUse) →
        IsQuietRun most lanes folder listed script p h a v x → IsQuietRun most lanes folder listed script q k b w y → (h ≡ k) × (a ≡ b) × (v ≡ w) }
    ensures one { (most lanes : ℕ) (folder : Program) (listed script : List Bytes) (p q : Bytes) (h k : WalkEnd) (a b : Program) (v w : ℕ) (x y : List LaneUse) →
        AsksNothingBeside script → IsQuietRun most lanes folder listed script p h a v x → IsQuietRun most lanes folder listed script q k b w y → (p ≡ q) × (x ≡ y) }
{
    beside::affected_sizes::each_edit_has_sizes();
    beside::affected_sizes::one_size_each();
    program_check::one_full();
    beside::answers_law::each_has_answer();
    beside::answers_law::one_answer();
}
