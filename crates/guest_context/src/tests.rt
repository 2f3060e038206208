use crate::{GuestContext, GuestState, InUse, MetaEntry, Oflow};
use aes_block::Key256;
use snp_model::GuestSpec;
use std::test::Fail;

const SPEC: GuestSpec = GuestSpec {
    opened: true,
    asid: 7,
    iv: u64::MAX - 1,
    key: [3; 32],
};

#[test]
fn opening(rt: HostRuntime) {
    for (opened, state) in [(true, GuestState::Running), (false, GuestState::Absent)] {
        let context = GuestContext::from_spec(&GuestSpec { opened, ..SPEC });
        assert_eq!(rt; context.state, state);
        assert_eq!(rt; context.bound, opened);
        assert_eq!(rt; context.asid, 7);
        assert_eq!(rt; context.iv, u64::MAX - 1);
        assert_eq!(rt; context.digest.bytes(), [0; 48]);
        assert_eq!(rt; context.pages, 0);
        assert_eq!(rt; context.root, None);
        assert_eq!(rt; context.holder, None);

        let mut block = [5; 16];
        let mut same = [5; 16];
        context.key().encrypt(&mut block);
        Key256::new(&[3; 32]).encrypt(&mut same);
        assert_eq!(rt; block, same);
    }
}

#[test]
fn lock_counter_and_root(rt: HostRuntime) -> Result<(), Fail> {
    let mut context = GuestContext::from_spec(&SPEC);
    assert_eq!(rt; context.lock(2), Ok(()));
    assert_eq!(rt; context.lock(3), Err(InUse { holder: 2 }));
    context.unlock(3);
    assert_eq!(rt; context.holder, Some(2));
    context.unlock(2);
    assert_eq!(rt; context.holder, None);

    assert_eq!(rt; context.next_iv(), Ok(u64::MAX - 1));
    assert_eq!(rt; context.next_iv(), Err(Oflow));
    assert_eq!(rt; context.iv, u64::MAX);

    let root = MetaEntry {
        kind: 2,
        vmsa: false,
        validated: false,
        asid: 7,
        gpn: 1 << 63,
        perms: [0; 4],
        iv: 4,
        tag: [9; 16],
    };
    context.set_root(Some(root));
    assert_eq!(rt; context.root, Some(root));
    context.set_root(None);
    assert_eq!(rt; context.root, None);
    Ok(())
}
