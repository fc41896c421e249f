//! What a recheck works with, and where it stands.
use check_values::{Root, Sig};
use committed_results::source_front::Parse;
use flow_values::{List, Shared};
use recheck_checking::{ErrorSlots, SharedTable};
use recheck_reach::check_phases::{Made, Sources};
use recheck_reach::recheck_merging::{MergePlan, Slots};
use recheck_reach::recheck_sources::Listed;

/// All results of the committed program, and the root of the edited one.
#[derive(Drop)]
pub(crate) struct Base {
    /// The results of the committed program.
    pub was: Made,
    /// The modules of the edited program.
    pub root: Shared<Root>,
    /// For each of them its number among the old ones, if it was one.
    pub from: Vec<Option<u32>>,
    /// For each of them whether it is new or has another text than before.
    pub fresh: Vec<bool>,
    /// The rows of the old root that the new one doesn't use.
    pub freed: Vec<u32>,
}

/// Some waves of the signatures are merged.
#[derive(Drop)]
pub(crate) struct Merging {
    /// The modules with what is known of each by itself.
    pub listed: Listed,
    /// For each the numbers of the modules that it imports, where any is touched.
    pub edges: Vec<List<u32>>,
    /// For each module whether it is touched: it is new, or its local signature or its dependency list differs.
    pub touched: Vec<bool>,
    /// Which modules are merged.
    pub plan: MergePlan,
    /// How many waves are.
    pub wave: usize,
    /// The signatures that are kept, and those that are merged.
    pub slots: Slots,
    /// For each module whether the signature that is there is the old one.
    pub same: Vec<bool>,
}

/// Some of the modules that are to be checked are.
#[derive(Drop)]
pub(crate) struct Checking {
    /// The modules with what is known of each by itself.
    pub sources: Sources,
    /// For each whether its dependency list is new or differs.
    pub relisted: Vec<bool>,
    /// The merged signature of each.
    pub signatures: Vec<Shared<Sig>>,
    /// For each whether its merged signature is new or differs.
    pub moved: Vec<bool>,
    /// The table of the signatures that the modules that are to be checked reach.
    pub table: SharedTable,
    /// The numbers of the modules that are to be checked, rising.
    pub checked: List<u32>,
    /// How many are checked.
    pub done: usize,
    /// The errors that are kept, and those of the modules that are checked.
    pub errors: ErrorSlots,
}

/// What is to be done next, with what is known for it.
#[derive(Drop)]
pub(crate) enum Stage {
    /// The sources are to be read.
    Fronts,
    /// The dependency lists are to be made.
    Lists {
        /// What the source of each module says by itself.
        parses: Vec<Shared<Parse>>,
    },
    /// The signatures of a wave are to be merged, and of those behind it.
    Merges(Merging),
    /// The modules behind those that are checked are to be checked.
    Checks(Checking),
}

/// What is staged.
#[derive(Clone, Copy, Debug)]
pub(crate) struct Staged {
    /// How many sources were read.
    pub parsed: u32,
    /// How many modules were checked.
    pub checked: u32,
    /// How many errors all modules have.
    pub errors: u64,
}

/// What a stage of work leads to.
#[derive(Drop)]
pub(crate) enum Next {
    /// There is more to do.
    GoesTo(Stage),
    /// All is staged.
    Ready(Staged),
}
