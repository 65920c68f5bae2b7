ghost use Rattle.voy_store.specs.Taken.{TakenHistoriesOpen};

/// The law that a store opens over a journal just where each transaction of its history was one that a store with those in
/// front of it takes: so whatever commits made opens again. There is nothing to run.
pub fn taken_histories_open()
    ensures { TakenHistoriesOpen }
{}
