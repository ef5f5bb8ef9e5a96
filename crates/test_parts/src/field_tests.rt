//! What a field may hold. The expected answers were worked out by hand from the guidelines.

use crate::cases::{Question, assert_answers};
use crate::telling::{said, yes_or_no};
use std::alloc::Global;
use std::process::Abort;
use tb_chars::{has_white_space, is_solid_text};
use tb_fields::{is_blank_field, is_feature_list, is_relation_text, is_tag, relation_base};

/// A question that can be asked of a field.
#[derive(Drop)]
enum FieldQuestion {
    Features,
    Tag,
    Relation,
    /// The relation without its subtype.
    RelationBase,
    Blank,
    WhiteSpace,
    Solid,
}

impl Question for FieldQuestion {
    fn answer(&self, rt: &impl Abort, alloc: Global, field: &str) -> String {
        let holds = match self {
            FieldQuestion::Features => is_feature_list(alloc, field).expect(rt, "error"),
            FieldQuestion::Tag => is_tag(field),
            FieldQuestion::Relation => is_relation_text(field),
            FieldQuestion::RelationBase => return said(rt, alloc, relation_base(field)),
            FieldQuestion::Blank => is_blank_field(field),
            FieldQuestion::WhiteSpace => has_white_space(field),
            FieldQuestion::Solid => is_solid_text(field),
        };
        yes_or_no(rt, alloc, holds)
    }
}

const FEATURES: &str = "\
    _ => yes\n\
    Ab=X|AB=Y => yes\n\
    Person[psor]=1 => yes\n\
    PronType=Int,Rel => yes\n\
    Number[abs]=Sing|Number[psor]=Sing => yes\n\
    Abbr=Yes|Animacy=Anim|Aspect=Perf|Case=Nom|Definite=Ind|Degree=Pos|Evident=Fh|Foreign=Yes|Gender=Masc|Mood=Ind|Number=Sing|NumType=Card => yes\n\
    Ab=X|AB=Y|Ab=Z => no\n\
    Case=Nom|Case=Acc => no\n\
    Number=Sing|Case=Nom => no\n\
    Person[psor=1 => no\n\
    Person[]=1 => no\n\
    person=1 => no\n\
    Case => no\n\
    Case= => no\n\
    Case=Nom| => no\n\
    PronType=Int,Int => no\n\
    Abbr=Yes|Animacy=Anim|Aspect=Perf|Case=Nom|Definite=Ind|Degree=Pos|Evident=Fh|Foreign=Yes|Gender=Masc|Mood=Ind|Number=Sing|NUMBER=Sing|Number=Plur => no\n\
    Abbr=Yes|Animacy=Anim|Aspect=Perf|Case=Nom|Definite=Ind|Degree=Pos|Evident=Fh|Foreign=Yes|Gender=Masc|Mood=Ind|NumType=Card|Number=Sing => no\n";

/// Lists of forty values: all different; with the first one again at the end; and with one in small letters at the
/// end.
const FORTY_VALUES: &str = "\
    A=A1,A2,A3,A4,A5,A6,A7,A8,A9,B1,B2,B3,B4,B5,B6,B7,B8,B9,C1,C2,C3,C4,C5,C6,C7,C8,C9,F1,F2,F3,F4,F5,F6,F7,F8,F9,E1,E2,E3,E4 => yes\n\
    A=A1,A2,A3,A4,A5,A6,A7,A8,A9,B1,B2,B3,B4,B5,B6,B7,B8,B9,C1,C2,C3,C4,C5,C6,C7,C8,C9,F1,F2,F3,F4,F5,F6,F7,F8,F9,E1,E2,E3,A1 => no\n\
    A=A1,A2,A3,A4,A5,A6,A7,A8,A9,B1,B2,B3,B4,B5,B6,B7,B8,B9,C1,C2,C3,C4,C5,C6,C7,C8,C9,F1,F2,F3,F4,F5,F6,F7,F8,F9,E1,E2,E3,e4 => no\n";

const TAGS: &str = "\
    ADJ => yes\n\
    PROPN => yes\n\
    X => yes\n\
    _ => no\n\
    \x20=> no\n\
    noun => no\n\
    NN => no\n\
    ADJ  => no\n";

const RELATIONS: &str = "\
    nsubj => yes\n\
    nsubj:pass => yes\n\
    root => yes\n\
    acl:relcl => yes\n\
    obl:arg:x => yes\n\
    vocative => yes\n\
    \x20=> no\n\
    _ => no\n\
    nsubjpass => no\n\
    nsubj: => no\n\
    root: => no\n\
    :pass => no\n\
    nsubj:p ass => no\n\
    Root => no\n";

const RELATION_BASES: &str = "\
    nsubj:pass => nsubj\n\
    root => root\n";

const BLANKS: &str = "\
    _ => yes\n\
    __ => no\n";

const WHITE_SPACES: &str = "\
    d'être => no\n\
    a\u{a0}b => yes\n";

const SOLIDS: &str = "\
    ở => yes\n\
    \x20=> no\n\
    a\u{3000} => no\n";

#[test]
fn tells_what_a_field_may_hold(rt: HostRuntime) {
    let tables = [
        (FieldQuestion::Features, FEATURES, 18),
        (FieldQuestion::Features, FORTY_VALUES, 3),
        (FieldQuestion::Tag, TAGS, 8),
        (FieldQuestion::Relation, RELATIONS, 14),
        (FieldQuestion::RelationBase, RELATION_BASES, 2),
        (FieldQuestion::Blank, BLANKS, 2),
        (FieldQuestion::WhiteSpace, WHITE_SPACES, 2),
        (FieldQuestion::Solid, SOLIDS, 3),
    ];
    for table in &tables {
        assert_answers(&rt, rt.alloc(), &table.0, table.1, table.2);
    }
}
