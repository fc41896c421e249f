//! What is merged together.
use check_values::{Deps, LocalSig, Sig};
use flow_values::{List, Path, Shared};

/// A module of a job: its path, what it says by itself, and which modules its specifiers find.
#[derive(Debug, Drop)]
pub struct MergeMember {
    pub path: Path,
    pub sig: Shared<LocalSig>,
    pub deps: Shared<Deps>,
}

/// The modules that are merged, and the merged signatures of others, which are asked before the members.
#[derive(Debug, Drop)]
pub struct MergeJob {
    pub members: List<MergeMember>,
    pub outside: List<(Path, Shared<Sig>)>,
}
