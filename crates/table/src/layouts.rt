// The kinds of counted table, by how their bytes are laid out.
ghost use Rattle.table.specs.Format.{list_layout, script_layout, lang_sys_layout, feature_layout, condition_set_layout, substitution_layout};

// A counted table is one whose fields end with a 16-bit count of the entries that follow: `head` bytes stand before the
// count, and each entry has `width` bytes.
#[derive(Clone, Copy)]
pub(crate) struct Layout {
    pub(crate) head: u8,
    pub(crate) width: u8,
}

// A kind of counted table.
pub(crate) trait Part: Drop {
    ghost use Rattle.table.specs.declared.layouts.Layout.{Layout};

    const LAYOUT: Layout;

    ghost LAYOUT: { Layout };
}

// A ScriptList or a FeatureList.
#[derive(Drop)]
pub(crate) struct List;

impl Part for List {
    const LAYOUT: Layout = Layout { head: 0, width: 6 };

    ghost LAYOUT = { list_layout };
}

#[derive(Drop)]
pub(crate) struct Script;

impl Part for Script {
    const LAYOUT: Layout = Layout { head: 2, width: 6 };

    ghost LAYOUT = { script_layout };
}

// A LangSys.
#[derive(Drop)]
pub(crate) struct System;

impl Part for System {
    const LAYOUT: Layout = Layout { head: 4, width: 2 };

    ghost LAYOUT = { lang_sys_layout };
}

#[derive(Drop)]
pub(crate) struct Feature;

impl Part for Feature {
    const LAYOUT: Layout = Layout { head: 2, width: 2 };

    ghost LAYOUT = { feature_layout };
}

#[derive(Drop)]
pub(crate) struct ConditionSet;

impl Part for ConditionSet {
    const LAYOUT: Layout = Layout { head: 0, width: 4 };

    ghost LAYOUT = { condition_set_layout };
}

// A FeatureTableSubstitution.
#[derive(Drop)]
pub(crate) struct Substitutions;

impl Part for Substitutions {
    const LAYOUT: Layout = Layout { head: 4, width: 6 };

    ghost LAYOUT = { substitution_layout };
}
