//! The page of trees.

use crate::telling::{assert_holds, text_of};
use std::process::Abort;
use tb_assets::trees_page;

/// Two rows with the signs that mean something in HTML.
const ROWS: &str = "# text = a < b & </script>\n1\t<\t&\t\"\t'\n";

/// The same rows as text of HTML, as Python's `html.escape` writes them without `quote`, but for `>`, which needs no
/// name there.
const ESCAPED: &str =
    "<pre id=\"conllu\"># text = a &lt; b &amp; &lt;/script>\n1\t&lt;\t&amp;\t\"\t'\n</pre>";

fn assert_page(rt: &impl Abort, page: &str) {
    let head = "<!doctype html>\n<html lang=\"en\">";
    assert_holds(rt, page.starts_with(head), "the head");
    assert_holds(rt, page.contains(ESCAPED), "the rows");
    assert_holds(rt, !page.contains("</script>\n1"), "the end of a script");
    let end = "</script>\n</body>\n</html>\n";
    assert_holds(rt, page.ends_with(end), "the end");
}

#[test]
fn a_page_holds_its_sentences_as_text(rt: HostRuntime) {
    let page = trees_page(rt.alloc(), ROWS.as_bytes()).expect(&rt, "a page");
    assert_page(&rt, text_of(&rt, page.as_slice()));
}
