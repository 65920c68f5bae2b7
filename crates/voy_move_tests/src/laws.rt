use std::test::Fail;
use voy_meta::{
    closed_stays, consistent, metadata_stand, records_join, records_read_back, records_say,
    refusals_tell, segments_stand, stages_go_on, states_grow,
};

#[test]
fn laws_may_be_called(_rt: HostRuntime) -> Result<(), Fail> {
    records_read_back();
    metadata_stand();
    consistent();
    records_join();
    closed_stays();
    records_say();
    refusals_tell();
    segments_stand();
    stages_go_on();
    states_grow();
    Ok(())
}
