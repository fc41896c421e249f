//! The law of lists that stay, as the contract of a call that does nothing.
ghost use Rattle.moved_paths.specs.Moved.{UnmovedStay};

/// A list of which no specifier can find a path that came, or could find one that went, is the same among the new paths.
pub fn unmoved_stay()
    ensures { UnmovedStay }
{}
