use voy_store::taken_histories_open;

#[test]
fn the_law_can_be_called() {
    taken_histories_open();
}
