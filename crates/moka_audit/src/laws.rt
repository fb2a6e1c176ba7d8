//! Laws of the definitions of transcripts. Each function does nothing: its contract is the law.
pub use audit_laws::{
    asking_changes_nothing, belongs_on, belongs_step_by_step, breaks_agree,
    breaks_where_unfollowed, deadlines_agree, feeds_may_be_cut, first_break_is_first, fronts_obey,
    good_is_faultless, idle_keeps, keys_answer, leads_on, leads_on_by, led_obeys,
    live_by_acceptance, nothing_told_size, obeying_may_be_cut, one_part_obeys, orderly_stays,
    places_agree, receipts_in_order, records_lead, replies_by_commands, steps_agree,
    steps_in_parts, transcripts_may_be_cut,
};
