ghost use Rattle.machine_laws.specs.Promise.{RunsKeepTheirPromise};

/// Every run of events of the machine's cores keeps its promise. Each step is allowed. Where its answer is no conflict, and memory
/// and registers behind the steps before it would give its first trail again, it is that of the fresh walk, of an access and of a
/// prefetch alike. Where the caches keep no rows each access is the fresh walk of its moment.
pub fn runs_keep_their_promise()
    ensures { RunsKeepTheirPromise }
{}
