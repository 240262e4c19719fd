use crate::font::builtin;
use crate::row::{FeatureRow, LangSysRow, ScriptRow};
use crate::slices::Rows;
use keys::Tag;
use source::{FeaturePlace, Kind, LangSysPlace, Source, Standing};
use std::test::Fail;

const TAG: Tag = Tag { code: 0x7465_7374 };

const NO_TAG: Tag = Tag { code: 0 };

fn feature(first: u16, count: u16) -> FeatureRow {
    FeatureRow {
        tag: TAG,
        first,
        count,
    }
}

fn script(default: u16, first: u16, count: u16) -> ScriptRow {
    ScriptRow {
        tag: TAG,
        default,
        first,
        count,
    }
}

fn record(lang_sys: u16) -> LangSysPlace {
    LangSysPlace::Record {
        script: 0,
        lang_sys,
    }
}

fn default_of(script: u16) -> LangSysPlace {
    LangSysPlace::Default { script }
}

fn listed(feature: u16) -> FeaturePlace {
    FeaturePlace::Listed { feature }
}

#[test]
fn builtin_scripts(rt: HostRuntime) {
    let font = builtin();
    assert_eq!(rt; font.script_list(), Standing::There(1));
    assert_eq!(rt; font.script_tag(0), Tag::new(*b"latn"));
    assert_eq!(rt; font.script_tag(1), NO_TAG);
    assert_eq!(rt; font.script(0), Standing::There(2));
    assert_eq!(rt; font.script(1), Standing::Absent);
    assert_eq!(rt; font.lang_sys_tag(0, 1), Tag::new(*b"TRK "));
    assert_eq!(rt; font.lang_sys_tag(0, 2), NO_TAG);
    assert_eq!(rt; font.lang_sys(record(2)), Standing::Absent);
    assert_eq!(rt; font.feature_index(default_of(0), 1), Some(1));
    assert_eq!(rt; font.feature_index(record(1), 1), Some(4));
    assert_eq!(rt; font.feature_index(record(1), 2), None);
}

#[test]
fn builtin_features(rt: HostRuntime) {
    let font = builtin();
    assert_eq!(rt; font.feature_list(), Standing::There(5));
    assert_eq!(rt; font.feature_tag(4), Tag::new(*b"pref"));
    assert_eq!(rt; font.feature_tag(5), NO_TAG);
    assert_eq!(rt; font.feature(listed(2)), Standing::There(2));
    assert_eq!(rt; font.feature(listed(4)), Standing::There(0));
    assert_eq!(rt; font.feature(listed(5)), Standing::Absent);
    assert_eq!(rt; font.lookup(listed(2), 1), Some(3));
    assert_eq!(rt; font.lookup(listed(2), 2), None);
    assert_eq!(rt; font.params(listed(0)), Standing::Absent);
    assert_eq!(rt; font.variations(), Standing::Absent);
}

#[test]
fn feature_ranges(rt: HostRuntime) -> Result<(), Fail> {
    let features = [feature(1, 2), feature(2, 2), feature(3, 0), feature(4, 0)];
    let font = Rows::open(Kind::Gpos, &features, &[], &[], &[7, 8, 9])?;
    assert_eq!(rt; font.lookup(listed(0), 1), Some(9));
    assert!(rt; font.feature(listed(1)).is_unreadable());
    assert_eq!(rt; font.lookup(listed(1), 0), None);
    assert_eq!(rt; font.feature_tag(1), TAG);
    assert_eq!(rt; font.feature(listed(2)), Standing::There(0));
    assert!(rt; font.feature(listed(3)).is_unreadable());
    Ok(())
}

#[test]
fn script_ranges(rt: HostRuntime) -> Result<(), Fail> {
    let systems = [LangSysRow {
        tag: TAG,
        first: 0,
        count: 2,
        required: 65535,
    }];
    let scripts = [
        script(65535, 0, 1),
        script(1, 1, 0),
        script(0, 0, 0),
        script(0, 1, 1),
    ];
    let font = Rows::open(Kind::Gsub, &[], &systems, &scripts, &[7])?;
    assert_eq!(rt; font.script(0), Standing::There(1));
    assert_eq!(rt; font.lang_sys(default_of(0)), Standing::Absent);
    assert!(rt; font.lang_sys(record(0)).is_unreadable());
    assert_eq!(rt; font.script(1), Standing::There(0));
    assert!(rt; font.lang_sys(default_of(1)).is_unreadable());
    assert!(rt; font.lang_sys(default_of(2)).is_unreadable());
    assert!(rt; font.script(3).is_unreadable());
    assert_eq!(rt; font.lang_sys(default_of(3)), Standing::Absent);
    Ok(())
}

fn taken<'x>(scripts: &'x [ScriptRow], pool: &'x [u16]) -> bool {
    Rows::open(Kind::Gsub, &[], &[], scripts, pool).is_ok()
}

#[test]
fn capacities(rt: HostRuntime) {
    let rows = [script(65535, 0, 0); 4097];
    let pool = [0; 32769];
    assert!(rt; taken(&rows[0..4096], &pool[0..32768]));
    assert!(rt; !taken(&rows, &pool[0..32768]));
    assert!(rt; !taken(&rows[0..4096], &pool));
}
