//! What the calls of a machine say together.

ghost use Rattle.sb_proc.specs.Laws.{BlocksCanBeDone, DeniedEnds, EndDoesNothing, FailedEnds, ReachedDoes, ToldDoes};

/// The acts that a machine gives, with the replies that it is told of, are what its block does.
pub fn acts_are_what_the_block_does()
    ensures reached { ReachedDoes }
    ensures end { EndDoesNothing }
    ensures told { ToldDoes }
    ensures denied { DeniedEnds }
    ensures failed { FailedEnds }
{}

/// A block can be done whatever it is, if only by being refused.
pub fn blocks_can_be_done()
    ensures { BlocksCanBeDone }
{}
