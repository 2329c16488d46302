//! Laws on the marks of accumulations: each a function with an empty body, whose contract is the law.
ghost use Rattle.f77_meaning.specs.Laws.{AccumulationsCombine, PlainReadsLeadToNone, FreshFramesWriteNone};

/// A law: after the marked read of an accumulation there is one number such that, whatever the answer, the next event is the marked
/// write of the operator applied to the answer and that number, and the process after that doesn't depend on the answer; or the next
/// event is fault 12 whatever the answer.
pub fn law_of_accumulations()
    ensures { AccumulationsCombine }
{}

/// A law: after a read that isn't marked comes no marked write.
pub fn law_of_plain_reads()
    ensures { PlainReadsLeadToNone }
{}

/// A law: a process whose last frame has no answers isn't before the write of an accumulation.
pub fn law_of_fresh_frames()
    ensures { FreshFramesWriteNone }
{}
