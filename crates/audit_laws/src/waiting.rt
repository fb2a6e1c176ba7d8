//! Laws of connections that wait for loads: of all connections, and of one while no other waits. Each function does nothing: its contract
//! is the law.
ghost use Rattle.audit_laws.specs.Waiting.Alone.{RecordsAlone};
ghost use Rattle.audit_laws.specs.Waiting.Apart.{RecordsApart};
ghost use Rattle.audit_laws.specs.Waiting.Closed.{ClosedUnwaited, GivesUpUnwaited};
ghost use Rattle.audit_laws.specs.Waiting.Keys.{RecordsKeepKeys};
ghost use Rattle.audit_laws.specs.Waiting.Sending.{RecordsSendLater, RecordsSettle};
ghost use Rattle.audit_laws.specs.Waiting.Tidy.{RecordsTidy, StepsTidy, TidyAtFirst, TidySettled};

/// Before the first record nobody waits for a load.
pub fn tidy_at_first()
    ensures { TidyAtFirst }
{}

/// When a load is settled, each connection that waited for it is still to be answered, once, and waits for no other load.
pub fn tidy_settled()
    ensures { TidySettled }
{}

/// A step that is right keeps each connection that waits once where it waits.
pub fn steps_tidy()
    ensures { StepsTidy }
{}

/// After a record that follows, each connection that waits for a load is open, its `LOAD` waits, and it waits for one load once, if this
/// was so before.
pub fn records_tidy()
    ensures { RecordsTidy }
{}

/// A record that follows while no other connection waits for a load has steps of that connection only, and leaves it so.
pub fn records_alone()
    ensures { RecordsAlone }
{}

/// A record that follows while no other connection waits for a load leaves each other connection as it was.
pub fn records_apart()
    ensures { RecordsApart }
{}

/// If no other connection waits, and this one is not open, nobody waits for a load.
pub fn closed_unwaited()
    ensures { ClosedUnwaited }
{}

/// A give-up while nobody waits has no steps, and only removes its load.
pub fn gives_up_unwaited()
    ensures { GivesUpUnwaited }
{}

/// A record that follows leaves each load that was sent its key: a new load has another number.
pub fn records_keep_keys()
    ensures { RecordsKeepKeys }
{}

/// A load that a record sends has a number above those that were sent before.
pub fn records_send_later()
    ensures { RecordsSendLater }
{}

/// A load that was sent is not under way after the record that settles it.
pub fn records_settle()
    ensures { RecordsSettle }
{}
