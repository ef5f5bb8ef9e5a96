//! The page of trees that `deskview tree` prints, without what it includes.
//!
//! This module is generated: `tools/page --write` writes it from the folder page/. Change the file there, and never here.

/// Its part before page.css.
pub const TREES_HEAD: &str = r##"<!doctype html>
<html lang="en">
<head>
<meta charset="utf-8">
<meta name="viewport" content="width=device-width, initial-scale=1">
<meta name="color-scheme" content="light dark">
<meta http-equiv="Content-Security-Policy" content="default-src 'none'; script-src 'unsafe-inline'; style-src 'unsafe-inline'; img-src data:">
<title>Dependency trees</title>
<link rel="icon" href="data:,">
<style>
"##;

/// Its part before conllu.
pub const TREES_BODY: &str = r##"section { min-height: 8rem; break-inside: avoid; }
section + section { margin-block-start: 1.2rem; }
section h2 { margin: 0; overflow-wrap: anywhere; }
section .word { cursor: default; }
@media print {
  .tools { display: none; }
  .tree { border: 0; }
  .tree-picture { max-width: 100%; height: auto; margin-inline: 0; }
}
</style>
</head>
<body>
<main id="trees">
<p class="tools" hidden><label><input id="enhanced" type="checkbox"> Enhanced relations (DEPS)</label></p>
<pre id="conllu">"##;

/// Its part before rows.js.
pub const TREES_SCRIPT: &str = r##"</pre>
</main>
<script type="module">
"##;

/// Its last part.
pub const TREES_END: &str = r##"</script>
</body>
</html>
"##;

/// The file trees.js.
pub const TREES_JS: &str = r##"// A page of trees, as a handout.
//
// Each sentence of the CoNLL-U in the page becomes a tree. A tree is drawn when it comes near the window, or before all is printed. Without a script the page shows the CoNLL-U.

const source = document.getElementById('conllu'), enhanced = document.getElementById('enhanced');

const hasDeps = row => row.fields.length === COLUMN_COUNT && row.fields[DEPS] !== '_';

/** A sentence of the page: its section, and what draws its tree there. */
class Sentence {
  section = document.createElement('section');
  #rows;

  constructor(text) {
    const title = document.createElement('h2'), words = document.createElement('p');
    this.#rows = rowsOf(text);
    this.hasDeps = this.#rows.some(hasDeps);
    title.textContent = comment(text, 'sent_id');
    words.textContent = comment(text, 'text');
    words.className = 'text';
    words.dir = 'auto';
    this.section.append(title, words);
    this.section.sentence = this;
  }

  get isDrawn() {
    return this.section.querySelector('.tree') !== null;
  }

  draw() {
    this.section.querySelector('.tree')?.remove();
    this.section.append(drawTree(this.#rows, { isEnhanced: enhanced.checked, onPick() {}, onHead() {} }));
  }
}

const sentences = source.textContent.split('\n\n').filter(text => rowsOf(text).length > 0).map(text => new Sentence(text));
const watcher = new IntersectionObserver(seen => {
  for (const { isIntersecting, target } of seen) if (isIntersecting && !target.sentence.isDrawn) target.sentence.draw();
}, { rootMargin: '100%' });

source.replaceWith(...sentences.map(sentence => sentence.section));
sentences.forEach(sentence => watcher.observe(sentence.section));
enhanced.closest('.tools').hidden = !sentences.some(sentence => sentence.hasDeps);
enhanced.addEventListener('change', () => sentences.filter(sentence => sentence.isDrawn).forEach(sentence => sentence.draw()));
window.addEventListener('beforeprint', () => sentences.filter(sentence => !sentence.isDrawn).forEach(sentence => sentence.draw()));
"##;
