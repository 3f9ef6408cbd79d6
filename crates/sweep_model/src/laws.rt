//! The laws of a sweeper's steps, each the contract of a function that does nothing.

ghost use Rattle.sweep_model.specs.Moves.{CopyKeepsTied, PutWrites, SetWrites, MailKeepsTied, SweepKeepsTied};
ghost use Rattle.sweep_model.specs.Moves.{CopyGoes, SweepGoes, AskGoes, AnswerGoes, AnswerFixes, ToldFixes, PopGoes, GoesOn};
ghost use Rattle.sweep_model.specs.Wholes.{RoundStands, ExchangeStands, QuietIsDone, StartStands, WorldHasSetting};
ghost use Rattle.sweep_model.specs.Turns.{ExchangeLowersRank, RankIsBounded, NamesCover};

/// What a sweeper writes keeps its memory tied to the world: a copy of an object of its own, a place put into a field
/// or a register that asked, and mail. So does a sweep: what is swept, the last unswept object, is taken out of the
/// unswept.
pub fn steps_keep_memory_tied()
    ensures copy { CopyKeepsTied }
    ensures put { PutWrites }
    ensures set { SetWrites }
    ensures mail { MailKeepsTied }
    ensures sweep { SweepKeepsTied }
{}

/// Each step of a sweeper is a list of events of its own, from every part of the state that it stood for, and so is one
/// after the other.
pub fn steps_are_events()
    ensures copy { CopyGoes }
    ensures sweep { SweepGoes }
    ensures ask { AskGoes }
    ensures answer { AnswerGoes }
    ensures answer_fixed { AnswerFixes }
    ensures told { ToldFixes }
    ensures pop { PopGoes }
    ensures on { GoesOn }
{}

/// A world has a setting of the core, and sweepers that begin with a message for each root stand for the state in which
/// the core begins.
pub fn sweepers_begin_the_core()
    ensures setting { WorldHasSetting }
    ensures start { StartStands }
{}

/// Rounds of all sweepers, in whatever order they ran, and exchanges lead to states that the sweepers stand for. Where
/// nothing is left to do, exactly the collected objects that the rules reach were forwarded, each by its owner, and each
/// slot of what is kept has the place of its object.
pub fn rounds_reach_the_end()
    ensures round { RoundStands }
    ensures exchange { ExchangeStands }
    ensures end { QuietIsDone }
{}

/// Rounds come to an end. What is left to do for the slots of a world is a number, of at most 7 for each slot; a round
/// does not make it rise, and an exchange in which a message goes makes it fall. The slots are counted from what the
/// sweepers have before the first round.
pub fn rounds_end()
    ensures exchange { ExchangeLowersRank }
    ensures bound { RankIsBounded }
    ensures cover { NamesCover }
{}
