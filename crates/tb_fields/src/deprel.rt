ghost use Rattle.std.specs.Prelude.{◌≡◌};
ghost use Rattle.tb_fields.specs.Relations.{is_relation_a_to_c, is_relation_d_to_m, is_relation_n_to_x};
ghost use Rattle.tb_fields.specs.Relations.{is_universal_relation, universal_part, is_relation};

use tb_chars::is_solid_text;

fn is_a_to_c(text: &str) -> bool
    ensures { result ≡ is_relation_a_to_c text.now }
{
    matches!(
        text,
        "acl"
            | "advcl"
            | "advmod"
            | "amod"
            | "appos"
            | "aux"
            | "case"
            | "cc"
            | "ccomp"
            | "clf"
            | "compound"
            | "conj"
            | "cop"
            | "csubj"
    )
}

fn is_d_to_m(text: &str) -> bool
    ensures { result ≡ is_relation_d_to_m text.now }
{
    matches!(
        text,
        "dep"
            | "det"
            | "discourse"
            | "dislocated"
            | "expl"
            | "fixed"
            | "flat"
            | "goeswith"
            | "iobj"
            | "list"
            | "mark"
    )
}

fn is_n_to_x(text: &str) -> bool
    ensures { result ≡ is_relation_n_to_x text.now }
{
    matches!(
        text,
        "nmod"
            | "nsubj"
            | "nummod"
            | "obj"
            | "obl"
            | "orphan"
            | "parataxis"
            | "punct"
            | "reparandum"
            | "root"
            | "vocative"
            | "xcomp"
    )
}

fn is_universal(text: &str) -> bool
    ensures { result ≡ is_universal_relation text.now }
{
    is_a_to_c(text) || is_d_to_m(text) || is_n_to_x(text)
}

/// The relation without its subtype: the text before the first colon.
pub fn relation_base(relation: &str) -> &str
    ensures { result.now ≡ universal_part relation.now }
{
    if is_universal(relation) {
        return relation;
    }
    match relation.split_once(':') {
        None => relation,
        Some((base, _)) => base,
    }
}

/// Whether the text is one of the 37 universal relations, alone or with a subtype after a colon.
///
/// UD v2 guidelines, "Universal Dependency Relations".
pub fn is_relation_text(relation: &str) -> bool
    ensures { result ≡ is_relation relation.now }
{
    if is_universal(relation) {
        return true;
    }
    match relation.split_once(':') {
        None => false,
        Some((base, subtype)) => is_universal(base) && is_solid_text(subtype),
    }
}
