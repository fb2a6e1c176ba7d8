//! Laws of the definitions of transcripts. Each function does nothing: its contract is the law.
#![tactic(auto)]

ghost use Rattle.audit_laws.specs.Laws.{FrontsObey, RecordsLead, StepsAgree, PlacesAgree, StepsInParts, LeadsOn, LeadsOnBy, LedObeys, BreaksAgree, BreaksWhereUnfollowed, GoodIsFaultless, FirstBreakIsFirst, NothingToldSize, LiveByAcceptance, OrderlyStays, IdleKeeps, AskingChangesNothing, KeysAnswer, BelongsStepByStep, BelongsOn, OnePartObeys, FeedsMayBeCut, TranscriptsMayBeCut, ObeyingMayBeCut, RepliesByCommands};
ghost use Rattle.audit_model.specs.Configs.{DeadlinesAgree};

pub mod receipts;
pub mod waiting;

pub use receipts::{
    Output, Receipt, are_of, copy_input, copy_outcome, output_of, receipts_in_order,
    receipts_stand, stands,
};
pub use waiting::{
    closed_unwaited, gives_up_unwaited, records_alone, records_apart, records_keep_keys,
    records_send_later, records_settle, records_tidy, steps_tidy, tidy_at_first, tidy_settled,
};

/// Each front (prefix) of a transcript that obeys obeys.
pub fn fronts_obey()
    ensures { FrontsObey }
{}

/// If there is no idle time beside own deadlines, a value's deadline is its own one, or else the earlier of live and idle time.
pub fn deadlines_agree()
    ensures { DeadlinesAgree }
{}

/// A transcript obeys, and none of its events is refused, exactly if each key has one part and its records follow one another from the
/// empty situation. Both directions, no premise.
pub fn steps_agree()
    ensures { StepsAgree }
{}

/// Records that follow one another from the empty situation lead to the situation that their whole history leaves.
pub fn records_lead()
    ensures { RecordsLead }
{}

/// If records follow one another, each step has the same place (task, line, what it sees, what it does, what is held after it) in the
/// whole history and in the situations.
pub fn places_agree()
    ensures { PlacesAgree }
{}

/// A record's steps may be taken one after the other: what follows after the first ones is what follows from the situation, and the tasks
/// that are left, to which they lead.
pub fn steps_in_parts()
    ensures { StepsInParts }
{}

/// A transcript that leads to a situation leads, with one more record that follows from there, to where that record leads.
pub fn leads_on()
    ensures { LeadsOn }
{}

/// Like `leads_on`, for transcripts in which the part of each value is a function of its key: the values of the record have the parts of
/// their keys too.
pub fn leads_on_by()
    ensures { LeadsOnBy }
{}

/// A transcript that leads to a situation, and in which each value's part is a function of its key, obeys, and none of its events is
/// refused.
pub fn led_obeys()
    ensures { LedObeys }
{}

/// `first_break` is the first record that breaks a rule: up to it and with it the transcript is not faultless (`is_good`). That is the
/// first record that does not follow from the situation before it, or with which a key gets a second part.
pub fn breaks_agree()
    ensures { BreaksAgree }
{}

/// If each key has one part over the whole transcript, `first_break` is the first record that does not follow.
pub fn breaks_where_unfollowed()
    ensures { BreaksWhereUnfollowed }
{}

/// The test `is_good` says exactly that a transcript obeys and that none of its events is refused.
pub fn good_is_faultless()
    ensures { GoodIsFaultless }
{}

/// `first_break` is none exactly if a transcript obeys and none of its events is refused. Otherwise it is the last record of the shortest
/// front (prefix) of which that is not so.
pub fn first_break_is_first()
    ensures { FirstBreakIsFirst }
{}

/// Without capacity a transcript that obeys reports no value with the cause `Size`.
pub fn nothing_told_size()
    ensures { NothingToldSize }
{}

/// A key that has no live value gets one only by a step that accepts it: no event does that, and so it is between any two steps of a
/// record, and between any two situations that records lead to.
pub fn live_by_acceptance()
    ensures { LiveByAcceptance }
{}

/// The values held stay orderly by each deed with true notes, and so in each situation that records lead to and in between: a part's excess
/// is marked at its values, and no two values have one key.
pub fn orderly_stays()
    ensures { OrderlyStays }
{}

/// A deed that does nothing to values leaves orderly ones as they are.
pub fn idle_keeps()
    ensures { IdleKeeps }
{}

/// A step of `HAS` or `KEYS`, if the values held are orderly, changes nothing of the situation but its own connection.
pub fn asking_changes_nothing()
    ensures { AskingChangesNothing }
{}

/// The reply to a `KEYS` lists the keys that have a live value, each once, in byte order.
pub fn keys_answer()
    ensures { KeysAnswer }
{}

/// Records that belong to a list of inputs from situation to situation (in order, each the input's event and following; none for an input
/// of another namespace or a refused one, and perhaps none for lack of memory) lead to the last situation; from the empty one their
/// transcript belongs to the inputs.
pub fn belongs_step_by_step()
    ensures { BelongsStepByStep }
{}

/// How records that belong to a list of inputs are added to. If one more input comes, the records still belong to the inputs without a
/// record of it, or with one more record, whose event is the input and which follows from the last situation. Two lists of inputs, with
/// records that lead from one situation to the next, may be concatenated.
pub fn belongs_on()
    ensures { BelongsOn }
{}

/// From situation to situation: a record of a feed with no held step may be cut into the records of two feeds, with each step in the feed
/// whose byte lets it run (the second is left out if the first closes the connection), and two such records of one connection at one moment
/// may be joined.
pub fn feeds_may_be_cut()
    ensures { FeedsMayBeCut }
{}

/// A transcript that obeys, and has no refused event, stays so if a feed of it that holds nothing back is cut in two, and if two
/// neighbouring feeds of one connection at one moment are joined.
pub fn transcripts_may_be_cut()
    ensures { TranscriptsMayBeCut }
{}

/// A transcript that obeys still does, whether or not some of its events are refused ones, if a feed of it that holds nothing back is
/// cut in two, and if two neighbouring feeds of one connection at one moment are joined; if the first closes the connection, also
/// without the second.
pub fn obeying_may_be_cut()
    ensures { ObeyingMayBeCut }
{}

/// Two transcripts of the same events, each faultless for its own configuration, have the same steps with the same replies, except for
/// `SYNC`'s, if nothing is reported as `Size` and the same steps are held back and the same `DROPIF`s refused. Their configurations may
/// differ in policy, number of parts and capacity, as long as both accept values or neither does; the part of each value and the steps that
/// report values may differ freely.
pub fn replies_by_commands()
    ensures { RepliesByCommands }
{}

/// If the configuration has one part, a transcript whose records follow one another from the empty situation obeys, and none of its
/// events is refused.
pub fn one_part_obeys()
    ensures { OnePartObeys }
{}
