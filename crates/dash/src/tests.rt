// That the call that can run out of memory succeeds.
use crate::problem_bytes;
use std::test::Fail;

#[test]
fn writes_the_dash(rt: HostRuntime) -> Result<(), Fail> {
    let bytes = problem_bytes(rt.alloc())?;
    assert_eq!(rt; bytes.len(), 154);
    assert_eq!(rt; &bytes[..8], [9, 0, 8, 0, 37, 0, 0, 0].as_slice());
    Ok(())
}
