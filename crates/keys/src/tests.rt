// Examples at each of the three key types.
use crate::order::Key;
use crate::pairs::Pair;
use crate::slots::{Full, contains, find, insert, is_ascending};
use crate::tags::Tag;
use crate::texts::NoTag;
use std::cmp::Ordering;

#[test]
fn finds_indices(rt: HostRuntime) {
    let keys = [2u16, 5, 9];
    assert_eq!(rt; find(&keys, 2), Ok(0));
    assert_eq!(rt; find(&keys, 9), Ok(2));
    assert_eq!(rt; find(&keys, 1), Err(0));
    assert_eq!(rt; find(&keys, 6), Err(2));
    assert_eq!(rt; find(&keys, 10), Err(3));
    assert_eq!(rt; find(&[0u16; 0], 7), Err(0));
    assert!(rt; contains(&keys, 5) && !contains(&keys, 4));
}

#[test]
fn tells_ascending(rt: HostRuntime) {
    assert!(rt; is_ascending(&[0u16; 0]) && is_ascending(&[7u16]) && is_ascending(&[2u16, 5, 9]));
    assert!(rt;
        !is_ascending(&[2u16, 2]) && !is_ascending(&[2u16, 9, 5]) && !is_ascending(&[5u16, 2, 9])
    );
}

#[test]
fn inserts_indices(rt: HostRuntime) {
    let mut slots = [0u16; 3];
    assert_eq!(rt; insert(&mut slots, 0, 7), Ok(1));
    assert_eq!(rt; insert(&mut slots, 1, 3), Ok(2));
    assert_eq!(rt; insert(&mut slots, 2, 7), Ok(2));
    assert_eq!(rt; insert(&mut slots, 2, 5), Ok(3));
    assert_eq!(rt; slots, [3, 5, 7]);
    assert_eq!(rt; insert(&mut slots, 3, 9), Err(Full));
    assert_eq!(rt; insert(&mut slots, 8, 3), Ok(3));
    assert_eq!(rt; slots, [3, 5, 7]);
}

#[test]
fn orders_tags(rt: HostRuntime) {
    let default = Tag::new(*b"DFLT");
    let latin = Tag::new(*b"latn");
    assert_eq!(rt; default.code, 0x4446_4C54);
    assert_eq!(rt; default.to_bytes(), *b"DFLT");
    assert_eq!(rt; default.order(latin), Ordering::Less);
    let mut slots = [default; 4];
    assert_eq!(rt; insert(&mut slots, 1, latin), Ok(2));
    assert_eq!(rt; insert(&mut slots, 2, Tag::new(*b"cyrl")), Ok(3));
    assert_eq!(rt; insert(&mut slots, 3, default), Ok(3));
    assert_eq!(rt; find(&slots[0..3], latin), Ok(2));
    assert_eq!(rt; slots[1].to_bytes(), *b"cyrl");
}

#[test]
fn reads_tags(rt: HostRuntime) {
    assert_eq!(rt; "latn".parse::<Tag>(), Ok(Tag::new(*b"latn")));
    assert_eq!(rt; "ab".parse::<Tag>(), Ok(Tag::new(*b"ab  ")));
    assert_eq!(rt; "".parse::<Tag>(), Err(NoTag));
    assert_eq!(rt; "latin".parse::<Tag>(), Err(NoTag));
}

#[test]
fn orders_pairs(rt: HostRuntime) {
    let low = Pair {
        script: 1,
        lang_sys: 9,
    };
    let high = Pair {
        script: 2,
        lang_sys: 0,
    };
    assert_eq!(rt; low.order(high), Ordering::Less);
    let mut slots = [high; 3];
    assert_eq!(rt; insert(&mut slots, 1, low), Ok(2));
    assert_eq!(rt;
        insert(
            &mut slots,
            2,
            Pair {
                script: 1,
                lang_sys: 3,
            },
        ),
        Ok(3)
    );
    assert_eq!(rt; slots[0].lang_sys, 3);
    assert_eq!(rt; slots[1], low);
    assert_eq!(rt; slots[2], high);
}
