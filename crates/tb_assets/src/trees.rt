//! A page of trees: one file that a browser shows without a desk, as for a handout.

ghost use Rattle.std.specs.Prelude.{◌≡◌, ◌++◌, [], IfOk, IsOk, OnOk};
ghost use Rattle.tb_assets.specs.Trees.{escaped, escaped_byte, trees_head, trees_page, trees_script};

use crate::files::{PAGE_CSS, ROWS_JS, TREE_JS};
use crate::parts::{TREES_BODY, TREES_END, TREES_HEAD, TREES_JS, TREES_SCRIPT};
use std::alloc::{AllocError, Global};

/// Appends what comes before the sentences.
fn push_head(page: &mut Vec<u8>) -> Result<(), AllocError>
    ensures { OnOk result (page.new.items ≡ page.old.items ++ trees_head) }
{
    page.extend_from_slice(TREES_HEAD.as_bytes())?;
    page.extend_from_slice(PAGE_CSS.as_bytes())?;
    page.extend_from_slice(TREES_BODY.as_bytes())?;
    Ok(())
}

/// Appends a byte as text of HTML.
fn push_byte(page: &mut Vec<u8>, byte: u8) -> Result<(), AllocError>
    ensures { OnOk result (page.new.items ≡ page.old.items ++ escaped_byte byte) }
{
    match byte {
        b'&' => page.extend_from_slice(b"&amp;"),
        b'<' => page.extend_from_slice(b"&lt;"),
        _ => page.extend_from_slice(&[byte]),
    }
}

/// Appends a text as text of HTML.
fn push_escaped(page: &mut Vec<u8>, text: &[u8]) -> Result<(), AllocError>
    ensures escaped { OnOk result (page.new.items ≡ page.old.items ++ escaped text.now) }
    ensures sure { text.now ≡ [] → IsOk result }
{
    for byte in text {
        push_byte(page, *byte)?;
    }
    Ok(())
}

/// Appends the script that draws the trees.
fn push_script(page: &mut Vec<u8>) -> Result<(), AllocError>
    ensures { OnOk result (page.new.items ≡ page.old.items ++ trees_script) }
{
    page.extend_from_slice(TREES_SCRIPT.as_bytes())?;
    page.extend_from_slice(ROWS_JS.as_bytes())?;
    page.extend_from_slice(TREE_JS.as_bytes())?;
    page.extend_from_slice(TREES_JS.as_bytes())?;
    Ok(())
}

/// The page that draws the trees of these sentences in CoNLL-U. It holds them as text.
///
/// # Errors
///
/// Memory was refused.
pub fn trees_page(alloc: Global, conllu: &[u8]) -> Result<Vec<u8>, AllocError>
    ensures { IfOk result (λ page. page.items ≡ trees_page conllu.now) }
{
    let mut page = Vec::new(alloc);
    push_head(&mut page)?;
    push_escaped(&mut page, conllu)?;
    push_script(&mut page)?;
    page.extend_from_slice(TREES_END.as_bytes())?;
    Ok(page)
}
