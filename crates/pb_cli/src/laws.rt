//! Laws of what is written as a run settles, and of its picture.

ghost use Rattle.pb_cli.specs.Exporting.{SettlesToTheSame};
ghost use Rattle.pb_cli.specs.StreamDrawing.{DrawsTheSame};

use law_streams::{
    a_greater_limit_changes_nothing, a_run_is_within_its_limit, a_stream_has_the_run,
};
use pb_scenario::files_without_repeats_mean_the_same;

/// Where the run of a file of version 1 or 2 ends, [`export_stream`](crate::export_stream) writes what
/// [`export_file`](crate::export_file) makes of the whole trace.
pub fn exports_settle_to_the_same()
    ensures { SettlesToTheSame }
{
    files_without_repeats_mean_the_same();
    a_run_is_within_its_limit();
    a_greater_limit_changes_nothing();
    a_stream_has_the_run();
}

/// Where the run of a file of version 1 or 2 ends, [`draw_stream`](crate::draw_stream) writes the picture that
/// [`export_file`](crate::export_file) makes.
pub fn pictures_are_the_same()
    ensures { DrawsTheSame }
{
    files_without_repeats_mean_the_same();
    a_run_is_within_its_limit();
    a_greater_limit_changes_nothing();
    a_stream_has_the_run();
}
