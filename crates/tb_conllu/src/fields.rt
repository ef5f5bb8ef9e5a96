//! The ten fields of a word line.

ghost use Rattle.std.specs.Prelude.{◌≡◌, [], ◌∷◌, MatchOption, false, true};
ghost use Rattle.std.specs.List.{list_any};
ghost use Rattle.tb_conllu.specs.Lines.{fields, has_ten_fields, is_empty};
ghost use Rattle.tb_conllu.specs.TenFields.{list_of};

use memchr::memchr;

/// The ten fields of a word line, in order.
#[derive(Clone, Copy)]
pub struct TenFields<'a> {
    pub id: &'a str,
    pub form: &'a str,
    pub lemma: &'a str,
    pub upos: &'a str,
    pub xpos: &'a str,
    pub feats: &'a str,
    pub head: &'a str,
    pub deprel: &'a str,
    pub deps: &'a str,
    pub misc: &'a str,
}

/// The ten fields: the first, each of the next eight, and the last. The reader goes on by one field each time.
macro_rules! fields_by {
    ($first:expr, $next:expr, $last:expr) => {
        TenFields {
            id: $first,
            form: $next,
            lemma: $next,
            upos: $next,
            xpos: $next,
            feats: $next,
            head: $next,
            deprel: $next,
            deps: $next,
            misc: $last,
        }
    };
}

pub(crate) use fields_by;

/// The first field of a line, and the text after its tab; `None` where no tab is left.
fn next_field(line: &str) -> Option<(&str, &str)>
    ensures { MatchOption result (fields line.now ≡ line.now ∷ []) (λ p.
        fields line.now ≡ p.0.now ∷ fields p.1.now) }
{
    let end = memchr(b'\t', line.as_bytes())?;
    Some((&line[..end], &line[end + 1..]))
}

/// The fields of a line that has ten. They may be empty.
fn cut(line: &str) -> Option<TenFields<'_>>
    ensures { MatchOption result (has_ten_fields line.now ≡ false) (λ p. fields line.now ≡ list_of p) }
{
    let (id, rest) = next_field(line)?;
    let (form, rest) = next_field(rest)?;
    let (lemma, rest) = next_field(rest)?;
    let (upos, rest) = next_field(rest)?;
    let (xpos, rest) = next_field(rest)?;
    let (feats, rest) = next_field(rest)?;
    let (head, rest) = next_field(rest)?;
    let (deprel, rest) = next_field(rest)?;
    let (deps, misc) = next_field(rest)?;
    if let Some((_tenth, _more)) = next_field(misc) {
        return None;
    }
    Some(TenFields {
        id,
        form,
        lemma,
        upos,
        xpos,
        feats,
        head,
        deprel,
        deps,
        misc,
    })
}

pub fn is_empty_text(text: &str) -> bool
    ensures { result ≡ is_empty text.now }
{
    text.is_empty()
}

fn any_empty(p: TenFields<'_>) -> bool
    ensures { result ≡ list_any is_empty (list_of p.entry) }
{
    is_empty_text(p.id)
        || is_empty_text(p.form)
        || is_empty_text(p.lemma)
        || is_empty_text(p.upos)
        || is_empty_text(p.xpos)
        || is_empty_text(p.feats)
        || is_empty_text(p.head)
        || is_empty_text(p.deprel)
        || is_empty_text(p.deps)
        || is_empty_text(p.misc)
}

/// The fields of a line that has ten, none of them empty.
pub fn ten_fields(line: &str) -> Option<TenFields<'_>>
    ensures { MatchOption result (has_ten_fields line.now ≡ false) (λ p. (has_ten_fields line.now ≡ true)
        × (fields line.now ≡ list_of p)) }
{
    let p = cut(line)?;
    if any_empty(p) {
        return None;
    }
    Some(p)
}
