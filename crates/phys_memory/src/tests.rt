use crate::Region;
use std::test::Fail;

#[test]
fn words_and_pages(rt: HostRuntime) -> Result<(), Fail> {
    let mut region = Region::zeroed(rt.alloc())?;
    region.store(511, 0, 1);
    assert_eq!(rt; region.swap(511, 0, u64::MAX), 1);
    assert_eq!(rt; region.compare_swap(511, 0, 1, 2), u64::MAX);
    assert_eq!(rt; region.compare_swap(511, 0, u64::MAX, 2), u64::MAX);
    region.page_fill(0, 7);
    region.store(0, 511, 8);
    let mut page = [0; 512];
    region.page_copy_out(0, &mut page);
    region.page_copy_in(510, &page);
    for (page, index, word) in [
        (0, 0, 7),
        (0, 511, 8),
        (1, 0, 0),
        (509, 511, 0),
        (510, 0, 7),
        (510, 511, 8),
        (511, 0, 2),
        (511, 1, 0),
        (511, 511, 0),
    ] {
        assert!(rt; page < 512 && index < 512);
        assert_eq!(rt; region.load(page, index), word, "{page} {index}");
    }
    Ok(())
}
