ghost use Rattle.voy_command.specs.Commands.Show.{StoresHaveOneText};
ghost use Rattle.voy_command.specs.Commands.DryRun.Valid.{ValidStreamsFold};

use voy_journal::one_reading;
use voy_tables::{empty_lists_have_no_rows, lists_are_tables, misfit_is_none_where_it_fits};

/// Law: by a readable schema, a segment is folded to its end exactly where it is absent or states a
/// stream of events whose changes are valid from no rows. There is nothing to run.
pub fn valid_streams_fold()
    ensures { ValidStreamsFold }
{
    lists_are_tables();
    misfit_is_none_where_it_fits();
    empty_lists_have_no_rows();
}

/// Law: a recording and a store's files state one text of the store at most, and none where the journal is
/// damaged. There is nothing to run.
pub fn stores_have_one_text()
    ensures { StoresHaveOneText }
{
    one_reading();
}
