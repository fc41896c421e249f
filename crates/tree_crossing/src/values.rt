// What crosses threads.
use check_job::CheckJob;
use check_job::source_front::Parse;
use flow_values::Shared;

fn crosses<T: Send + Sync>(_: &T) {}

/// What a source says may be sent to another thread, and lent to it. It does nothing.
pub fn parse_crosses(parse: &Parse) {
    crosses(parse)
}

/// The same of a shared one. It does nothing.
pub fn shared_parse_crosses(parse: &Shared<Parse>) {
    crosses(parse)
}

/// The same of what a module is checked by. It does nothing.
pub fn job_crosses(job: &CheckJob) {
    crosses(job)
}
