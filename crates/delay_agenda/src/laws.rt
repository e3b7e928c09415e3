ghost use Rattle.delay_agenda.specs.Laws.{HeadIsNext, NumbersAreBelow, NumbersAreDistinct};
ghost use Rattle.delay_agenda.specs.Laws.{PutAddsOne, PostKeeps, PutKeeps, TakeKeeps, CancelKeeps};
ghost use Rattle.delay_agenda.specs.Laws.{PutCounts, CancelCounts};

/// What the list of an agenda's entries tells.
///
/// In order, its head is the entry that is taken next. Posting adds exactly one entry and leaves
/// the others as they stand. The numbers of what an agenda keeps are below its next number, and no
/// two are equal.
pub fn entries_tell<X>()
    ensures head { HeadIsNext X }
    ensures put { PutAddsOne X }
    ensures below { NumbersAreBelow X }
    ensures distinct { NumbersAreDistinct X }
{}

/// Posting, adding an entry under a number that none has, taking and cancelling keep entries in
/// order, and their numbers distinct and below the next.
pub fn calls_keep_order<X>()
    ensures post { PostKeeps X }
    ensures put { PutKeeps X }
    ensures take { TakeKeeps X }
    ensures cancel { CancelKeeps X }
{}

/// How many Turns an object has, after an entry more and after its Turns were cancelled.
pub fn turns_are_counted<X>()
    ensures put { PutCounts X }
    ensures cancel { CancelCounts X }
{}
