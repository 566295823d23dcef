ghost use Rattle.machine_laws.specs.NotAllowed.{NothingFalseIsAllowed};
ghost use Rattle.machine_laws.specs.NotAllowedRuns.{WrongAnswersAreRefused};

/// No answer is allowed that shows an item, on its trail or on either of a conflict, which memory or register didn't have when it
/// was read, or which was read under other register fields or another VMID; whose outcome isn't that of the walk that ends on its
/// trail or needs a word behind it, or lacks a place that memory has; that has a second trail and no conflict, or a conflict of
/// one trail or of two equal ones; whose ASID or VMID isn't that of now, or whose `old` or `stale` is turned, or the two
/// exchanged. And no access or prefetch is without an answer.
pub fn nothing_false_is_allowed()
    ensures { NothingFalseIsAllowed }
{}

/// Wrong answers behind small runs, each beside one that is allowed: a leaf or a table under another ASID; a leaf or a table of
/// stage 1, or a leaf of stage 2, whose covering invalidation was complete before its use; a base later or earlier than its first
/// word; a translation fault from an old word; a translation where the leaf refuses the access; and a conflict of a trail that
/// ends before its leaf.
pub fn wrong_answers_are_refused()
    ensures { WrongAnswersAreRefused }
{}
