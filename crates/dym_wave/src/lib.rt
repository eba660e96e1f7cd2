//! Objects that run in waves: each is a work, which workers run turn by turn while a pruner sweeps
//! its log table in a thread of its own; the objects' parts are written, or counted, in the order of
//! their declarations.
//!
//! Below stand `dym_object`, which runs an object's commands one by one, `dym_pool`, whose workers
//! take the works' turns, `dym_prune`, which sweeps, `dym_view`, by which a work's oldest log is
//! published, `dym_quota` and `dym_region`, which have the segments, and `dym_report`, which writes;
//! above stands the top call. Its one contract: `run_wave` gives every work back once, in order, with
//! its origin (`WavePromise`), and what is told of a work is what a run of its own commands gives
//! (`JobMeaning`). So whatever the workers, the segments and the quantum, the text of `write_waves` is
//! that of the objects' own commands (`part_text`, or `viewed_part`), the same that one object after
//! another would give, or a front of it where the sink failed or memory was wanting; `tally_waves`
//! answers what they come to (`tally_all`). Both texts are defined here, for every order
//! (`specs/Reports.antt`). Jobs of any other kind are run by `run_with_sweepers` (`EveryJobBack`,
//! `Pruned`).
#![tactic(auto)]

mod consumer;
mod log_tables;
mod object_end;
mod object_queue;
mod object_setup;
mod observed_run;
mod observer;
mod open_wave;
mod part_text;
mod publication;
mod quotas;
mod report_options;
mod run_fail;
mod shape;
mod sweeper_run;
mod turns;
mod view_set;
mod wave;
mod wave_options;
mod wave_report;
mod wave_sum;
mod wave_tally;
mod work;
mod work_list;
mod work_origin;
mod work_state;

pub use report_options::ReportOptions;
pub use shape::Shape;
pub use sweeper_run::run_with_sweepers;
pub use wave::run_wave;
pub use wave_options::WaveOptions;
pub use wave_report::write_waves;
pub use wave_tally::tally_waves;
pub use work::Work;
pub use work_origin::WorkOrigin;
pub use work_state::WorkSpec;
