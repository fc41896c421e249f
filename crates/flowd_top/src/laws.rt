//! What holds of the definitions, as the contracts of calls that do nothing.
ghost use Rattle.std.specs.Prelude.{◌≡◌, ◌≤◌, ℕ, List, Option, Some, length};
ghost use Rattle.flow_base.specs.Program.{Bytes, Program, paths_of};
ghost use Rattle.command_words.specs.declared.command.Command.{Command};
ghost use Rattle.generated_run.specs.Script.{MayList, IsRunSoFar, AsksNothingBeside};
ghost use Rattle.flowd_top.specs.Run.{NamesFolder, IsTranscript, GoesOnTo, RunEnd, EndsAlike};
ghost use Rattle.flowd_top.specs.declared.status.Status.{Status};

/// What a run printed up to a line of the script goes on to a whole transcript, with no further read
/// fault.
pub fn a_front_goes_on()
    ensures { (words : List Bytes) (c : Command) (told : Option Program) (script : Option (List Bytes)) (listed : List Bytes) (faults : ℕ) (printed : Bytes) →
        NamesFolder words c → MayList told listed → length listed ≤ c.modules → IsRunSoFar c.modules c.lanes told listed script faults printed → GoesOnTo words told script faults printed }
{
    generated_run::a_front_goes_on();
}

/// Where the folder and the script tell their content, and the folder may list its paths, there is a
/// transcript without a read fault. Two of them have one status, and end at one program and version; and there is one only
/// where no line asks something beside a recheck.
pub fn one_transcript()
    ensures some { (words : List Bytes) (folder : Program) (script : List Bytes) → MayList (Some folder) (paths_of folder) →
        (printed : Bytes) × (how : Status) × (left : Option RunEnd) × IsTranscript words (Some folder) (Some script) 0 printed how left }
    ensures one { (words : List Bytes) (folder : Program) (script : List Bytes) (p q : Bytes) (h k : Status) (x y : Option RunEnd) → AsksNothingBeside script →
        IsTranscript words (Some folder) (Some script) 0 p h x → IsTranscript words (Some folder) (Some script) 0 q k y → (p ≡ q) × (h ≡ k) × (x ≡ y) }
    ensures one_end { (words : List Bytes) (folder : Program) (script : List Bytes) (p q : Bytes) (h k : Status) (x y : Option RunEnd) →
        IsTranscript words (Some folder) (Some script) 0 p h x → IsTranscript words (Some folder) (Some script) 0 q k y → (h ≡ k) × EndsAlike x y }
{
    affected_sizes::each_edit_has_sizes();
    program_check::one_full();
    command_words::one_command();
    generated_run::one_quiet_run();
    generated_run::one_generated_run();
}
