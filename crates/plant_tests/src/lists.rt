// Number lists: their limits, and what lies beyond the 256th entry.
use plant::{Element, NumberList, Refusal, Table};

#[test]
fn entries_beyond_256_are_untouched(rt: HostRuntime) {
    let mut entries = [7; 300];
    {
        let mut list = NumberList::new(&mut entries);
        assert_eq!(rt; list.count(), 256);
        assert_eq!(rt; list.put(Element(255), 8), Ok(()));
        assert_eq!(rt; list.put(Element(256), 8), Err(Refusal::NoSuchElement));
        assert_eq!(rt; list.get(Element(256)), Err(Refusal::NoSuchElement));
    }
    assert!(rt; entries[255] == 8 && entries[254] == 7 && entries[256] == 7 && entries[299] == 7);
}

#[test]
fn entries_hold_32_signed_bits(rt: HostRuntime) {
    let mut entries = [0, 0];
    {
        let mut list = NumberList::new(&mut entries);
        assert_eq!(rt; list.put(Element(0), list.lowest()), Ok(()));
        assert_eq!(rt; list.put(Element(1), list.highest()), Ok(()));
        assert_eq!(rt;
            list.put(Element(0), -2_147_483_649),
            Err(Refusal::NumberOutsideLimits)
        );
        assert_eq!(rt;
            list.put(Element(1), 2_147_483_648),
            Err(Refusal::NumberOutsideLimits)
        );
        assert_eq!(rt;
            list.put(Element(2), 2_147_483_648),
            Err(Refusal::NoSuchElement)
        );
    }
    assert!(rt; entries == [-2_147_483_648, 2_147_483_647]);
}

#[test]
fn a_list_has_its_entries_and_allows_32_bits(rt: HostRuntime) {
    let mut entries = [0, 0];
    let list = NumberList::new(&mut entries);
    assert!(rt; list.has(Element(1)) && !list.has(Element(2)));
    assert!(rt; list.allows(-2_147_483_648) && !list.allows(-2_147_483_649));
    assert!(rt; list.allows(2_147_483_647) && !list.allows(2_147_483_648));
}
