//! Chains whose links may be pending.

use limbo_core::Chains;
use std::test::Fail;

#[test]
fn a_taken_chain_leads_to_what_was_pushed(rt: HostRuntime) -> Result<(), Fail> {
    let mut chains = Chains::open(rt.alloc(), 1, 2)?;
    assert_eq!(rt; chains.swap_in(0, 1), 0);
    assert_eq!(rt; chains.swap_in(0, 2), 1);
    chains.link(1, 0);
    chains.link(2, 1);
    assert_eq!(rt; chains.swap_out(0), 2);
    assert_eq!(rt; chains.next(2), 1);
    assert_eq!(rt; chains.next(1), 0);
    Ok(())
}
