//! The file page.css of the page, as `deskview page` serves it.
//!
//! This module is generated: `tools/page --write` writes it from the folder page/. Change the file there, and never here.

/// The file page.css.
pub const PAGE_CSS: &str = r##":root {
  color-scheme: light dark;
  --paper: light-dark(#fbfaf7, #16181b);
  --sheet: light-dark(#ffffff, #1e2125);
  --ink: light-dark(#1c1d1f, #e6e4df);
  --quiet: light-dark(#5d6068, #a2a6ae);
  --rule: light-dark(#d9d6ce, #3a3e45);
  --link: light-dark(#0b57a4, #8dbdf5);
  --accent: light-dark(#0b6b5c, #5fd0ba);
  --accent-ink: light-dark(#ffffff, #06251f);
  --warn: light-dark(#a3200d, #ff9d8c);
  --warn-paper: light-dark(#fdeeea, #3a201b);
  --done-paper: light-dark(#e8f4ef, #17312b);
  --mark: light-dark(#ffe79a, #6b5300);
  --gone: light-dark(#fde4df, #46231d);
  --new: light-dark(#dff3e6, #1c3a29);
  --mono: ui-monospace, "DejaVu Sans Mono", "Noto Sans Mono", monospace;
  --sans: system-ui, "Noto Sans", sans-serif;
}
* { box-sizing: border-box; }
[hidden] { display: none !important; }
body { margin: 0; background: var(--paper); color: var(--ink); font: 15px/1.5 var(--sans); }
header { display: flex; flex-wrap: wrap; align-items: center; gap: .4rem 1.5rem; padding: .55rem 1.2rem; background: var(--sheet); border-bottom: 1px solid var(--rule); }
header nav { display: flex; gap: 1.2rem; }
header nav a { text-decoration: none; padding: .15rem 0; border-bottom: 2px solid transparent; }
header nav a[aria-current] { color: var(--ink); border-color: var(--accent); }
#who { margin-inline-start: auto; display: flex; gap: .5rem; align-items: center; }
#skip { position: absolute; left: -99rem; }
#skip:focus { left: .5rem; }
main { padding: .8rem 1.2rem 4rem; outline: none; }
h1 { font-size: 1.35rem; margin: .4rem 0; outline: none; }
h2 { font-size: 1.05rem; margin: 1rem 0 .4rem; }
h3 { font-size: 1rem; margin: 0; overflow-wrap: anywhere; }
a { color: var(--link); }
code, pre, .code, .conllu, .grid, .diff, #query { font-family: var(--mono); font-size: 13px; }
code { overflow-wrap: anywhere; }
.quiet { color: var(--quiet); font-weight: normal; font-size: .9rem; }
:focus-visible { outline: 2px solid var(--accent); outline-offset: 1px; }
h1:focus-visible, main:focus-visible { outline: none; }

button, input, select, textarea { font: inherit; color: inherit; background: var(--sheet); border: 1px solid var(--rule); border-radius: 5px; padding: .22rem .55rem; }
button, ::file-selector-button { cursor: pointer; }
::file-selector-button { font: inherit; color: inherit; background: var(--paper); border: 1px solid var(--rule); border-radius: 4px; padding: .05rem .5rem; margin-inline-end: .6rem; }
button:hover:not(:disabled) { border-color: var(--accent); }
button:disabled { opacity: .45; cursor: default; }
button.main { background: var(--accent); color: var(--accent-ink); border-color: var(--accent); }
button.unlikely { color: var(--quiet); border-style: dashed; background: var(--sheet); }
button[data-sure] { background: var(--warn-paper); color: var(--warn); border-color: var(--warn); }
input:user-invalid { border-color: var(--warn); }
label { display: inline-flex; flex-wrap: wrap; align-items: center; gap: .4rem; max-width: 100%; }
input { max-width: 100%; }
.tools { display: flex; flex-wrap: wrap; align-items: center; gap: .4rem .8rem; margin: .5rem 0; }
.rule { border-inline-start: 1px solid var(--rule); height: 1.6rem; }
@media (max-width: 620px) { .rule { display: none; } }

#told:not(:empty) { position: sticky; top: 0; z-index: 2; padding: .45rem 1.2rem; border-bottom: 1px solid var(--rule); }
#told.done { background: var(--done-paper); }
#told.refused { background: var(--warn-paper); color: var(--warn); }
.fault { color: var(--warn); }
pre.fault { background: var(--warn-paper); padding: .4rem .6rem; overflow-x: auto; }

.board { display: grid; grid-template-columns: repeat(6, minmax(0, 1fr)); gap: .7rem; align-items: start; }
@media (max-width: 1150px) { .board { grid-template-columns: repeat(3, minmax(0, 1fr)); } }
@media (max-width: 620px) { .board { grid-template-columns: 1fr; } }
.state { background: light-dark(#f1efe9, #1a1d20); border-radius: 8px; padding: .5rem .6rem .7rem; border-top: 3px solid var(--hue); }
.state h2 { margin: 0; text-transform: capitalize; }
.total { margin: 0 0 .5rem; color: var(--quiet); font-size: .88rem; }
.open { --hue: #8a8f98; } .assigned { --hue: #3b82c4; } .submitted { --hue: #b07ad0; } .adjudicated { --hue: #d08a2e; } .released { --hue: #2f9e6e; } .withdrawn { --hue: #b4534a; }
.card { background: var(--sheet); border: 1px solid var(--rule); border-radius: 6px; padding: .45rem .55rem; margin-bottom: .5rem; }
.card p { margin: .1rem 0 .4rem; font-size: .88rem; color: var(--quiet); overflow-wrap: anywhere; }
.events { display: flex; flex-wrap: wrap; gap: .3rem; }
.events button { font-size: .85rem; padding: .1rem .45rem; }
.badge { border: 1px solid var(--hue); border-inline-start-width: 6px; border-radius: 4px; padding: 0 .45rem; }
#import { margin-top: 1.2rem; border: 2px dashed var(--rule); border-radius: 8px; padding: .2rem 1rem .8rem; }
#import.over { border-color: var(--accent); background: var(--done-paper); }

table { border-collapse: collapse; }
@media (max-width: 760px) { .wide { overflow-x: auto; } }
.sentences, .moves, .counts { background: var(--sheet); font-size: .92rem; }
.sentences { width: 100%; }
.sentences th:nth-child(3) { width: 65%; }
th { text-align: start; font-weight: 600; color: var(--quiet); font-size: .85rem; }
.sentences th, .moves th, .counts th { position: sticky; top: 0; background: var(--sheet); border-bottom: 1px solid var(--rule); }
.sentences td, .moves td, .counts td, .sentences th, .moves th, .counts th { padding: .16rem .6rem; border-bottom: 1px solid var(--rule); vertical-align: top; }
.sentences th:is(:nth-child(1), :nth-child(4), :nth-child(5)), .moves th:is(:nth-child(1), :nth-child(4), :nth-child(7), :nth-child(8), :nth-child(9)), .counts th:is(:nth-child(2), :nth-child(3)) { text-align: end; }
td.number { text-align: end; font-variant-numeric: tabular-nums; white-space: nowrap; }
tr.pulled td { color: var(--quiet); text-decoration: line-through; }
tr.pulled td:last-child { text-decoration: none; color: var(--warn); }
.counts { min-width: 60%; }
.bars { width: 45%; }
.bar { background: var(--accent); height: .85em; margin-top: .3em; border-radius: 2px; min-width: 1px; }

#query { width: 100%; font-size: 15px; padding: .5rem .6rem; }
#context { width: 4.2rem; }
.examples { margin: .3rem 0; padding-inline-start: 1.2rem; }
.hits { font-weight: 600; font-size: 1.05rem; margin: .8rem 0 .2rem; }
.cite { margin: .2rem 0; }
.save { margin-bottom: .5rem; }
.lines { background: var(--sheet); border: 1px solid var(--rule); border-radius: 6px; padding: .3rem 0; overflow: hidden; }
.block { content-visibility: auto; contain-intrinsic-height: auto 2600px; }
.line { display: grid; grid-template-columns: 8rem calc(50% - 8rem) 50%; height: 26px; line-height: 26px; white-space: pre; }
.line:hover, .line:focus-within { background: var(--done-paper); cursor: pointer; }
.line :is(.id, .left span, mark, .right span) { unicode-bidi: plaintext; }
.line .id { border: 0; background: none; color: var(--link); padding: 0 .6rem; text-align: left; overflow: hidden; text-overflow: ellipsis; font-size: .85rem; }
.line[dir=rtl] .id { text-align: right; }
.line .left { display: flex; justify-content: flex-end; overflow: hidden; padding-inline-end: .5em; }
.line .left span { flex: none; }
.line .right { overflow: hidden; text-overflow: ellipsis; }
mark { background: var(--mark); color: inherit; border-radius: 2px; padding: 0 .1em; }

.text { font-size: 1.15rem; margin: .2rem 0 .6rem; }
.tree { overflow-x: auto; background: var(--sheet); border: 1px solid var(--rule); border-radius: 6px; }
.tree-picture { position: relative; margin-inline: auto; }
.tree-picture div { position: absolute; top: 0; height: 100%; }
.tree-picture svg { display: block; width: 100%; height: 100%; }
/* Marked words are laid out at once, since the window goes to them. */
.tree-picture .words:not(:has(.hit)) { content-visibility: auto; }
.tree-picture text { text-anchor: middle; fill: var(--ink); font: 11px var(--sans); unicode-bidi: plaintext; }
.tree-picture .form { font-size: 16px; }
.tree-picture .tag, .tree-picture .id { fill: var(--quiet); }
.tree-picture .id { font-size: 9.5px; }
.tree-picture .relation { fill: var(--link); }
.tree-picture .range { fill: var(--quiet); }
.tree-picture path { fill: none; stroke: var(--quiet); stroke-width: 1.2; }
.tree-picture .brace { stroke: var(--rule); stroke-width: 1.5; }
.tree-picture .root { stroke: var(--accent); }
.tree-picture .deep { stroke: var(--link); stroke-dasharray: 4 3; }
.tree-picture .basic { stroke: var(--rule); stroke-dasharray: none; }
.tree-picture .tips { fill: var(--quiet); stroke: none; }
.tree-picture .tips.deep { fill: var(--link); }
.tree-picture .lifted path { stroke: var(--accent); stroke-width: 2.4; }
.tree-picture .lifted .tips { stroke: none; fill: var(--accent); }
.word rect { fill: transparent; }
.word { cursor: pointer; user-select: none; }
.word:hover rect { fill: var(--done-paper); }
.word.hit rect { fill: var(--mark); }
.word.empty rect { stroke: var(--quiet); stroke-dasharray: 3 3; }
.word.empty .form { font-style: italic; }

.unsaved { color: var(--warn); margin: .2rem 0; }
p.quiet { margin: .2rem 0; }
.hints { color: var(--warn); margin: .3rem 0; padding-inline-start: 1.2rem; font-size: .92rem; }
.sideways { overflow-x: auto; }
.tab { border: 1px solid var(--rule); border-radius: 5px; padding: .1rem .5rem; background: var(--sheet); }
.grid { display: block; min-width: 60rem; background: var(--sheet); border: 1px solid var(--rule); border-width: 1px 0 0 1px; }
.grid :is(thead, tbody) { display: block; }
.grid tbody { content-visibility: auto; contain-intrinsic-height: auto 1190px; }
.grid tr { display: grid; grid-template-columns: var(--columns); }
.grid :is(td, th) { border: 1px solid var(--rule); border-width: 0 1px 1px 0; padding: .1rem .4rem; overflow: hidden; text-overflow: ellipsis; white-space: pre; }
.grid td { cursor: cell; }
.grid td:focus-visible { outline-offset: -2px; }
.grid td:has(input) { padding: 0; overflow: visible; z-index: 1; min-width: 6rem; }
.grid td:last-child { justify-self: end; width: 100%; }
.grid input { font: inherit; width: 100%; border: 0; border-radius: 0; padding: .1rem .4rem; outline: 2px solid var(--accent); outline-offset: -2px; }
.grid tr.span td, .grid tr.empty td { color: var(--quiet); background: light-dark(#f5f3ee, #23262b); }
.grid tr.odd td { background: var(--warn-paper); }
.conllu { width: 100%; tab-size: 12; white-space: pre; line-height: 1.45; }
#stale:not(:empty) { border: 1px solid var(--warn); border-radius: 6px; padding: 0 .8rem .3rem; margin: .6rem 0; }
.diff { background: var(--sheet); width: 100%; table-layout: fixed; }
.diff td, .diff th { padding: .1rem .5rem; vertical-align: top; white-space: pre-wrap; overflow-wrap: anywhere; tab-size: 4; border-inline-start: 1px solid var(--rule); }
.diff .same td { color: var(--quiet); font-family: var(--sans); }
.diff .gone td:first-child, .diff .turned td:first-child { background: var(--gone); }
.diff .new td:last-child, .diff .turned td:last-child { background: var(--new); }
.revisions li { margin: .15rem 0; }
/* (the message stays at the top of the window) */
#stale, #history { scroll-margin-block: 3.5rem; }

@media print { .block, .tree-picture .words:not(:has(.hit)), .grid tbody { content-visibility: visible; } }
"##;
