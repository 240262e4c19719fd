use crate::alike::{
    apart_font, apart_font_matches, apart_font_numbers, apart_font_retained, swapped_font,
    swapped_font_numbers, trimmed_font, trimmed_font_numbers,
};
use crate::numbers::{first_font_numbers, first_font_own, first_font_pairs, first_font_retained};
use crate::tables::{first_font, first_font_matches, first_font_survivors, varied_font};
use crate::visits::{visit_of_4999, visit_of_5000};
use keys::Tag;
use numbering::{Numbering, join_features, number_features};
use rows::{FeatureRow, LangSysRow, Rows, ScriptRow, builtin};
use source::{
    Condition, FeatureParams, FeaturePlace, Kind, LangSys, LangSysPlace, Refusal, Source, Standing,
};
use std::process::Abort;
use std::test::Fail;
use table::Table;

fn first() -> Result<Table<'static>, Refusal> {
    Table::open(Kind::Gsub, first_font())
}

#[test]
fn first_font_answers(rt: HostRuntime) -> Result<(), Fail> {
    let t = first()?;
    assert_eq!(rt; t.script_list(), Standing::There(1));
    assert_eq!(rt; t.script_tag(0).code, 0x6c61_746e);
    assert_eq!(rt; t.script(0), Standing::There(2));
    assert_eq!(rt; t.feature_list(), Standing::There(5));
    let rom = LangSysPlace::Record {
        script: 0,
        lang_sys: 0,
    };
    assert_eq!(rt;
        t.lang_sys(rom),
        Standing::There(LangSys {
            required: 65535,
            count: 2,
        })
    );
    assert_eq!(rt; t.feature_index(rom, 1), Some(2));
    assert_eq!(rt; t.feature_index(rom, 2), None);
    assert_eq!(rt; t.lookup(FeaturePlace::Listed { feature: 2 }, 1), Some(3));
    assert_eq!(rt;
        t.feature(FeaturePlace::Listed { feature: 5 }),
        Standing::Absent
    );
    Ok(())
}

#[test]
fn varied_font_parts(rt: HostRuntime) -> Result<(), Fail> {
    let t = Table::open(Kind::Gpos, varied_font())?;
    assert_eq!(rt; t.script(0), Standing::There(0));
    assert_eq!(rt; t.script(2), Standing::Absent);
    assert_eq!(rt; t.script(3), Standing::Unreadable);
    let xyz = LangSysPlace::Record {
        script: 1,
        lang_sys: 2,
    };
    assert_eq!(rt; t.lang_sys(xyz), Standing::Unreadable);
    assert_eq!(rt;
        t.feature(FeaturePlace::Listed { feature: 4 }),
        Standing::Absent
    );
    assert_eq!(rt;
        t.feature(FeaturePlace::Listed { feature: 5 }),
        Standing::Unreadable
    );
    let format_1 = Condition::Format1 {
        axis: 0,
        minimum: 0xc000,
        maximum: 0x4000,
    };
    assert_eq!(rt; t.condition(0, 0), Standing::There(format_1));
    assert_eq!(rt; t.condition(0, 1), Standing::There(Condition::Other));
    assert_eq!(rt; t.condition(0, 2), Standing::Unreadable);
    assert_eq!(rt; t.condition(0, 3), Standing::Absent);
    assert_eq!(rt; t.condition_set(2), Standing::Unreadable);
    assert_eq!(rt; t.substituted_index(0, 3), Some(3));
    let alternate = FeaturePlace::Alternate {
        variation: 0,
        substitution: 0,
    };
    assert_eq!(rt; t.lookup(alternate, 0), Some(3));
    Ok(())
}

fn params_len(p: Standing<FeatureParams<'_>>) -> Option<usize> {
    p.there().map(|p| match p {
        FeatureParams::Size(b)
        | FeatureParams::StylisticSet(b)
        | FeatureParams::CharacterVariant(b) => b.len(),
    })
}

#[test]
fn varied_font_params(rt: HostRuntime) -> Result<(), Fail> {
    let t = Table::open(Kind::Gpos, varied_font())?;
    assert_eq!(rt;
        params_len(t.params(FeaturePlace::Listed { feature: 0 })),
        Some(10)
    );
    assert_eq!(rt;
        params_len(t.params(FeaturePlace::Listed { feature: 1 })),
        Some(4)
    );
    assert_eq!(rt;
        params_len(t.params(FeaturePlace::Listed { feature: 2 })),
        Some(20)
    );
    assert_eq!(rt;
        params_len(t.params(FeaturePlace::Listed { feature: 3 })),
        None
    );
    Ok(())
}

fn refused(bytes: &[u8]) -> Option<u8> {
    Table::open(Kind::Gsub, bytes)
        .err()
        .map(|refusal| refusal.number())
}

#[test]
fn tables_that_are_refused(rt: HostRuntime) {
    let mut large = [0u8; 65536];
    assert_eq!(rt; refused(&large), Some(1));
    assert_eq!(rt; refused(&large[0..65535]), Some(2));
    large[1] = 1;
    assert_eq!(rt; refused(&large[0..65535]), None);
    assert_eq!(rt; refused(&large[0..10]), None);
    assert_eq!(rt; refused(&large[0..9]), Some(2));
    large[3] = 1;
    assert_eq!(rt; refused(&large[0..13]), Some(2));
    assert_eq!(rt; refused(&large[0..14]), None);
}

const LIGA: Tag = Tag { code: 0x6c69_6761 };

const DFLT: Tag = Tag { code: 0x6466_6c74 };

const LATN: Tag = Tag { code: 0x6c61_746e };

fn numbered<S: Source>(source: &S, lookups: &[u16], features: &[u16]) -> Result<Numbering, Fail> {
    number_features(source, lookups, features, &[LATN]).map_err(|_| Fail::new("refused"))
}

fn numbered_as_first<S: Source>(rt: &impl Abort, source: &S) -> Result<(), Fail> {
    let n = numbered(source, &[0, 1], &[0, 1, 2, 3, 4])?;
    assert!(rt; n.survivors.as_slice() == first_font_survivors().as_slice());
    assert!(rt; n.earliest.as_slice() == first_font_matches().as_slice());
    assert!(rt; n.retained.as_slice() == first_font_retained().as_slice());
    assert!(rt; n.numbers.as_slice() == first_font_numbers().as_slice());
    assert_eq!(rt; n.own, first_font_own());
    assert!(rt; n.pairs.as_slice() == first_font_pairs().as_slice());
    Ok(())
}

#[test]
fn first_font_numbering(rt: HostRuntime) -> Result<(), Fail> {
    numbered_as_first(&rt, &first()?)?;
    numbered_as_first(&rt, &builtin())
}

#[test]
fn earliest_match_not_retained(rt: HostRuntime) -> Result<(), Fail> {
    let n = numbered(&apart_font()?, &[0, 1], &[0, 1, 2, 3])?;
    assert!(rt; n.earliest.as_slice() == apart_font_matches().as_slice());
    assert!(rt; n.retained.as_slice() == apart_font_retained().as_slice());
    assert!(rt; n.numbers.as_slice() == apart_font_numbers().as_slice());
    assert_eq!(rt; n.own, 3);
    Ok(())
}

#[test]
fn lookups_in_two_orders(rt: HostRuntime) -> Result<(), Fail> {
    let n = numbered(&swapped_font()?, &[0, 1], &[0, 1])?;
    assert!(rt; n.retained.as_slice() == [0, 1].as_slice());
    assert!(rt; n.numbers.as_slice() == swapped_font_numbers().as_slice());
    assert_eq!(rt; n.own, 2);
    Ok(())
}

#[test]
fn lookups_that_are_not_kept(rt: HostRuntime) -> Result<(), Fail> {
    let n = numbered(&trimmed_font()?, &[0], &[0, 1])?;
    assert!(rt; n.retained.as_slice() == [0, 1].as_slice());
    assert!(rt; n.numbers.as_slice() == trimmed_font_numbers().as_slice());
    assert_eq!(rt; n.own, 1);
    Ok(())
}

// How many features are retained where the default language system alone lists feature 0, that many times.
fn retained_of(count: u16) -> Result<usize, Fail> {
    let pool = [0; 5000];
    let features = [FeatureRow {
        tag: LIGA,
        first: 0,
        count: 1,
    }];
    let systems = [LangSysRow {
        tag: DFLT,
        first: 0,
        count,
        required: LangSys::NONE_REQUIRED,
    }];
    let scripts = [ScriptRow {
        tag: LATN,
        default: 0,
        first: 0,
        count: 0,
    }];
    let font = Rows::open(Kind::Gsub, &features, &systems, &scripts, &pool)?;
    Ok(numbered(&font, &[0], &[0])?.retained.as_slice().len())
}

#[test]
fn visits_that_succeed_and_fail(rt: HostRuntime) -> Result<(), Fail> {
    assert!(rt; visit_of_4999());
    assert_eq!(rt; retained_of(4999)?, 1);
    assert!(rt; !visit_of_5000());
    assert_eq!(rt; retained_of(5000)?, 0);
    Ok(())
}

#[test]
fn first_font_joins(rt: HostRuntime) -> Result<(), Fail> {
    let t = first()?;
    let mut survivors = [9u16; 5];
    let mut earliest = [9u16; 5];
    let Some(joins) = join_features(&t, &[0, 1], &[0, 1, 2, 3, 4], &mut survivors, &mut earliest)
    else {
        return Err(Fail::new("refused"));
    };
    assert_eq!(rt; joins.survivors, 4);
    assert_eq!(rt; joins.matched, 4);
    assert!(rt; &survivors[0..4] == first_font_survivors().as_slice());
    assert!(rt; &earliest[0..4] == first_font_matches().as_slice());
    Ok(())
}
