ghost use Rattle.voy_tables.specs.Laws.{ChangeKeepsClean, EmptyListsHaveNoRows, FoldsAgree, ListsAreTables, MisfitIsNoneWhereItFits, RowFoldsAgree, SpotsCompare, TestsDecideEquality};
ghost use Rattle.voy_tables.specs.RowLaws.{CutRowsAreTheNext, RecordedRowsAreLawful, RowTextIsNotEmpty, RowTextReadsBack, RowTextsAreNoFronts, RowTextsJoin, RowsReadBack};

/// Law: a well-formed change does the same to lists of rows as to the tables that they are, and their
/// rows stay lawful and in strictly ascending order of their keys.
pub fn lists_are_tables()
    ensures { ListsAreTables }
{}

/// Law: a well-formed change has no misfit exactly where it fits the tables.
pub fn misfit_is_none_where_it_fits()
    ensures { MisfitIsNoneWhereItFits }
{}

/// Law: many well-formed changes, one after the other, do the same to lists of rows as to the tables.
pub fn folds_agree()
    ensures { FoldsAgree }
{}

/// Law: lists with no rows are the tables with no rows.
pub fn empty_lists_have_no_rows()
    ensures { EmptyListsHaveNoRows }
{}

/// Law: a text reads as these rows exactly where it is what they are written as, one after the other,
/// and each is lawful for the table and within the limit.
pub fn rows_read_back()
    ensures { RowsReadBack }
{}

/// Law: the text of a lawful row within the limit, read by itself, is that row.
pub fn row_text_reads_back()
    ensures { RowTextReadsBack }
{}

/// Law: rows that are read of a recorded text are lawful for the table and within the limit.
pub fn recorded_rows_are_lawful()
    ensures { RecordedRowsAreLawful }
{}

/// Law: many lawful rows, inserted one after the other, do the same to lists of rows as to the tables.
pub fn row_folds_agree()
    ensures { RowFoldsAgree }
{}

/// Law: a change that fits clean tables leaves them clean.
pub fn change_keeps_clean()
    ensures { ChangeKeepsClean }
{}

/// Law: the tests for the same key, values, tuple and row say exactly that both are equal.
pub fn tests_decide_equality()
    ensures { TestsDecideEquality }
{}

/// Law: a [`crate::Spot`] comes before another by its commit, and within one commit by its seq.
pub fn spots_compare()
    ensures { SpotsCompare }
{}

/// Law: the text of rows is that of the first ones, and behind it that of the others.
pub fn row_texts_join()
    ensures { RowTextsJoin }
{}

/// Law: the text of a row is not empty.
pub fn row_text_is_not_empty()
    ensures { RowTextIsNotEmpty }
{}

/// Law: of the texts of two lawful rows of a table, neither is a front of the other, but where both are
/// one row.
pub fn row_texts_are_no_fronts()
    ensures { RowTextsAreNoFronts }
{}

/// Law: what stands in the text of lawful rows behind the text of some lawful rows is the text of the
/// next rows.
pub fn cut_rows_are_the_next()
    ensures { CutRowsAreTheNext }
{}
