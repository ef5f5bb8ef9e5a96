//! Laws of pages of trees. Each function does nothing: its contract is the law.

ghost use Rattle.std.specs.Prelude.{◌≡◌, ℕ, List, ◌++◌, take, codes};
ghost use Rattle.tb_assets.specs.Trees.{BeginsNoTag, escaped, trees_page};

/// In a page of trees no text of a sentence begins a tag, so a browser runs none of it.
pub fn sentences_begin_no_tag()
    ensures { (text : List ℕ) → BeginsNoTag (escaped text) }
{}

/// A page of trees is a document of HTML from its first line to its last. Its sentences are the text of one element,
/// which ends before the script.
pub fn pages_of_trees_are_html()
    ensures begins { (text : List ℕ) → take 16 (trees_page text) ≡ codes "<!doctype html>\n" }
    ensures sentences { (text : List ℕ) → (before : List ℕ) × (after : List ℕ) × (trees_page text
        ≡ before ++ codes "<pre id=\"conllu\">" ++ escaped text
        ++ codes "</pre>\n</main>\n<script type=\"module\">\n" ++ after) }
    ensures ends { (text : List ℕ) → (before : List ℕ) × (trees_page text
        ≡ before ++ codes "</script>\n</body>\n</html>\n") }
{}
