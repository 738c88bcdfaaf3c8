use super::*;
use crate::tests::check_record;

#[test]
fn forgetting(rt: HostRuntime) {
    check_record!(
        rt;
        ForgetIn { nlookup: 0x0807060504030201 },
        [1, 2, 3, 4, 5, 6, 7, 8];
    );
    check_record!(
        rt;
        ForgetOne { nodeid: 5, nlookup: 258 },
        [5, 0, 0, 0, 0, 0, 0, 0, 2, 1, 0, 0, 0, 0, 0, 0];
    );
}
