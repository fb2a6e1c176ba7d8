//! What a settled load's waiters get, in order: the laws of answers and give-ups. Each function here does nothing: its contract is the law.
ghost use Rattle.cache_lines.specs.Leads.Laws.{AbandonedLeads, AnswerSettles, AnswerTidy, AnsweredLeads, DeliveredLeads, GiveUpSettles, GiveUpTidy, HeldBackLeads, StepsLeadOn, LinesLead, NoLinesLead, NothingLeads, StepsKeepTidy, ToldWaits, WaitsAgainLeads};
ghost use Rattle.cache_lines.specs.Leads.Waiters.{RecordsWaitForLoads};

/// No step leads nowhere else, and steps lead on from where others led. Each connection that still has to be told of its load waits, once, as
/// it did before them.
pub fn steps_lead_on()
    ensures nothing { NothingLeads }
    ensures on { StepsLeadOn }
    ensures tidy { StepsKeepTidy }
{}

/// Each connection that waited for a load that is settled is still to be told, once, and waits when its turn comes.
pub fn told_waits()
    ensures answer { AnswerTidy }
    ensures give_up { GiveUpTidy }
    ensures waits { ToldWaits }
{}

/// A waiting `LOAD` that receives its load's outcome lets its connection run lines again.
pub fn delivered_leads()
    ensures { DeliveredLeads }
{}

/// A given-up `LOAD` runs again as a whole command: it is answered, waits again, is held back, or is abandoned at its 200th give-up.
pub fn run_again_leads()
    ensures answered { AnsweredLeads }
    ensures waits { WaitsAgainLeads }
    ensures held { HeldBackLeads }
    ensures abandoned { AbandonedLeads }
{}

/// Steps run with other tasks after theirs as they do alone, and no line runs if none may.
pub fn lines_lead()
    ensures some { LinesLead }
    ensures none { NoLinesLead }
{}

/// The record of an answer follows, whose value was stored, and whose waiting connections received the outcome and ran their lines in
/// order.
pub fn answer_settles()
    ensures { AnswerSettles }
{}

/// The record of a give-up follows, whose waiting `LOAD`s ran again in order, each followed by its connection's lines.
pub fn give_up_settles()
    ensures { GiveUpSettles }
{}

/// A record that follows keeps it so that what waits for a load is a `LOAD`.
pub fn records_wait_for_loads()
    ensures { RecordsWaitForLoads }
{}
