//! The file index.html of the page, as `deskview page` serves it.
//!
//! This module is generated: `tools/page --write` writes it from the folder page/. Change the file there, and never here.

/// The file index.html.
pub const INDEX_HTML: &str = r##"<!doctype html>
<html lang="en">
<head>
<meta charset="utf-8">
<meta name="viewport" content="width=device-width, initial-scale=1">
<meta name="color-scheme" content="light dark">
<title>treedesk</title>
<link rel="icon" href="data:,">
<link rel="stylesheet" href="/page/page.css">
<link rel="modulepreload" href="/page/desk.js">
<link rel="modulepreload" href="/page/rows.js">
<link rel="modulepreload" href="/page/conllu.js">
<link rel="modulepreload" href="/page/tree.js">
<link rel="modulepreload" href="/page/edit.js">
<link rel="modulepreload" href="/page/find.js">
<script type="module" src="/page/page.js"></script>
</head>
<body>
<header>
  <button type="button" id="skip">To the content</button>
  <strong>treedesk</strong>
  <nav aria-label="Views">
    <a href="#/">Board</a>
    <a href="#/search">Search and count</a>
    <a href="#/moves">Moves</a>
  </nav>
  <form id="who">
    <label for="me">I am</label>
    <input id="me" size="12" maxlength="32" autocomplete="username" spellcheck="false" placeholder="your name"
      pattern="[A-Za-z0-9._\-]{1,32}" title="1 to 32 letters, digits, dots, underscores and hyphens">
  </form>
</header>
<div id="told" role="status" aria-live="polite"></div>
<main id="main" tabindex="-1"></main>
<noscript>This page needs JavaScript. The program treedesk does all of this at a command line.</noscript>
<datalist id="tags"></datalist>
<datalist id="relations"></datalist>
</body>
</html>
"##;
