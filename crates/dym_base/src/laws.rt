//! What the definitions come to, in the subject's own words. Each law is the contract of a function that does nothing.
ghost use Rattle.dym_base.specs.Laws.{FreshIsFree, FreshIsLeast, NumberKeepsHandle, HandleKeepsNumber, AreasAreLeast, FreshNeedsArea, QuotaIsKept, StartIsWellSized, StepIsWellSized, HeapRefusalKeeps, ObjectRefusalKeeps, StartTouchesLive, StepTouchesLive};
ghost use Rattle.dym_base.specs.StandingLaws.{FullStandsAlone, LogsStandForOne};
ghost use Rattle.dym_base.specs.Limits.{LimitsAreThese};
ghost use Rattle.dym_base.specs.RunLaws.{RunsKeepQuota, RunsKeepSizes, RunsTouchLive, RunsKeepLogs, ReachedAreBefore};
ghost use Rattle.dym_base.specs.RestoreLaws.{RestoresBringBack};

/// The index of a new chunk is the least of its class that isn't live.
pub fn fresh_is_least()
    ensures free { FreshIsFree }
    ensures least { FreshIsLeast }
{}

/// A handle and its number give each other back.
pub fn numbers_name_handles()
    ensures handle { NumberKeepsHandle }
    ensures number { HandleKeepsNumber }
{}

/// The areas of a class reach just as far as its live chunks.
pub fn areas_are_least()
    ensures { AreasAreLeast }
{}

/// A new chunk needs at most one segment more, and none where an area of its class has room.
pub fn fresh_needs_an_area()
    ensures { FreshNeedsArea }
{}

/// No command takes a heap above its quota.
pub fn quota_is_kept()
    ensures { QuotaIsKept }
{}

/// In every heap that commands make, each chunk's length is one of its class.
pub fn lengths_fit_classes()
    ensures start { StartIsWellSized }
    ensures step { StepIsWellSized }
{}

/// A command that was refused changed nothing.
pub fn refusals_change_nothing()
    ensures heap { HeapRefusalKeeps }
    ensures object { ObjectRefusalKeeps }
{}

/// In every heap that commands make, what was touched is live.
pub fn touched_are_live()
    ensures start { StartTouchesLive }
    ensures step { StepTouchesLive }
{}

/// Along every run the heap and each log that is kept are within the quota.
pub fn runs_keep_quota()
    ensures { RunsKeepQuota }
{}

/// Along every run each chunk's length is one of its class, in the heap and in each log that is kept.
pub fn runs_keep_sizes()
    ensures { RunsKeepSizes }
{}

/// Along every run what was touched is live, and what a log found touched is in its copy.
pub fn runs_touch_live()
    ensures { RunsTouchLive }
{}

/// Along every run at most 256 logs are kept, their times rise, and at most 31 incremental ones follow a full one.
pub fn runs_keep_logs()
    ensures { RunsKeepLogs }
{}

/// A restore and a prune find the last log at or before a time by counting the logs at or before it.
pub fn reached_are_before()
    ensures { ReachedAreBefore }
{}

/// A restore brings back what was logged: after a log at `t` and any commands, none of which restores to a time before `t`, a restore
/// to `t` that finds that log makes live exactly what was live when it was made.
pub fn restores_bring_back()
    ensures { RestoresBringBack }
{}

/// A full log alone stands for its copy, and no logs stand for two maps.
pub fn logs_stand_for_one()
    ensures alone { FullStandsAlone }
    ensures one { LogsStandForOne }
{}

/// The limits are these numbers.
pub fn limits_are_these()
    ensures { LimitsAreThese }
{}
