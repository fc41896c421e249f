//! What an edit of a program cannot change in its full check. Three sets of paths are affected: `Parsed`, `Merged` and `Checked`.
//! Outside of them all stays, so a check that makes the rest anew is full. The definitions stand in `specs/`; the code here is the
//! laws, as the contracts of calls that do nothing.
#![tactic(auto)]

ghost use Rattle.affected_law.specs.Inside.{FoundIsAmong, NamedIsKnown, ImportsStayInside, ReachStaysInside};
ghost use Rattle.affected_law.specs.Kept.{MarksKeepImports, ParseServes, DepsServe, SigServes, ErrorsServe, JobsFindErrors};
ghost use Rattle.affected_law.specs.Law.{ParsesStay, SignaturesStay, ErrorsStay, ResultsStay, UnparsedKeepsText, UnmergedKeepsImports, UncheckedKeepsCheck, ParsedAreChecked, ChecksGoByMerging};
ghost use Rattle.affected_law.specs.Recheck.{RecheckedIsFull};

/// Outside the affected paths the full check of the new program says what that of the old one said.
pub fn what_stays()
    ensures parses { ParsesStay }
    ensures signatures { SignaturesStay }
    ensures errors { ErrorsStay }
    ensures results { ResultsStay }
{
    program_check::source_front::one_parse();
    merged_signatures::merging_is_local();
    program_check::errors_by_reach::errors_by_reach();
    reach_law::key_law();
}

/// To be outside the affected paths is to keep what each part depends on; paths that are marked keep their imports, where no import
/// leaves the marks and nothing that is marked differs.
pub fn what_is_outside()
    ensures text { UnparsedKeepsText }
    ensures imports { UnmergedKeepsImports }
    ensures check { UncheckedKeepsCheck }
    ensures marks { MarksKeepImports }
{}

/// What is parsed anew is checked anew; what stays, and reaches only what isn't merged anew, is not checked anew.
pub fn how_the_sets_lie()
    ensures parsed { ParsedAreChecked }
    ensures merged { ChecksGoByMerging }
{
    merged_signatures::merging_is_local();
}

/// Specifiers, merged signatures, imports and reach lead to modules of the program alone.
pub fn all_stays_inside()
    ensures found { FoundIsAmong }
    ensures named { NamedIsKnown }
    ensures imports { ImportsStayInside }
    ensures reach { ReachStaysInside }
{}

/// Each part of a full check serves on in another program, where what it depends on stays.
pub fn what_serves_on()
    ensures parse { ParseServes }
    ensures deps { DepsServe }
    ensures sig { SigServes }
    ensures errors { ErrorsServe }
{
    program_check::source_front::one_parse();
    merged_signatures::merging_is_local();
    reach_law::key_law();
}

/// What a job finds of a module by signatures that say where it reaches what all merged signatures do is the errors of the full check.
pub fn what_jobs_find()
    ensures { JobsFindErrors }
{
    program_check::errors_by_reach::errors_by_reach();
    reach_law::key_law();
    reach_law::cut_is_right();
}

/// A check of which each part is made anew, or is kept where what it depends on stays, is the full check of the new program.
pub fn rechecked_is_full()
    ensures { RecheckedIsFull }
{
    program_check::source_front::one_parse();
    merged_signatures::merging_is_local();
    reach_law::key_law();
}
