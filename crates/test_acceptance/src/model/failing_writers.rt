//! Writers with room for a beginning of the report on a model.

use crate::support::{MODELS_MET, expect_any_room, expect_equal};
use std::test::Fail;

#[test]
fn failing_writers(rt: HostRuntime) -> Result<(), Fail> {
    expect_equal(MODELS_MET.report(rt.alloc())?.len(), 29)?;
    expect_any_room(rt.alloc(), &[MODELS_MET])
}
