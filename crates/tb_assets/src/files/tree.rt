//! The file tree.js of the page, as `deskview page` serves it.
//!
//! This module is generated: `tools/page --write` writes it from the folder page/. Change the file there, and never here.

/// The file tree.js.
pub const TREE_JS: &str = r##"// A dependency tree as a picture (SVG).
//
// Arcs are above the words. Each relation is right above its own dependent, where the arrow ends, so no label lies on
// another. Each column is as wide as its widest text. Enhanced relations (DEPS) are drawn below the words.
//
// The picture is a stack of sheets: one has all arcs, and each of the others some words. A browser lays out a sheet of
// words when it comes near the window (page.css), so a thousand words are shown as soon as fifty. Many arcs are one path.

const NS = 'http://www.w3.org/2000/svg';
const FONT = 'system-ui, "Noto Sans", sans-serif';
// All in pixels: between two columns, at both ends, the highest arcs in all, one level of arcs above and below.
const GAP = 14, EDGE = 16, TALLEST = 420, LEVEL = 20, LEVEL_BELOW = 14;
// Line heights of enhanced relations, and of the ranges.
const LINE = 13, RANGE_LINE = 30;
// Where more arcs than this go from one head to one side, they share a height: a star would be one grey block.
const FAN = 7;
// Words of one sheet, and arcs of one path.
const SHEET = 50;

/** A list in parts of that size. */
const inSheets = all => Array.from({ length: Math.ceil(all.length / SHEET) }, (_, i) => all.slice(i * SHEET, (i + 1) * SHEET));

// ---- texts

/** Measures texts in a font, in pixels. Measuring is slow, and the same words come again. */
export function measuring(font) {
  const pen = document.createElement('canvas').getContext('2d'), widths = new Map();
  pen.font = font;
  return text => {
    if (!widths.has(text)) {
      if (widths.size > 20000) widths.clear();
      widths.set(text, pen.measureText(text).width);
    }
    return widths.get(text);
  };
}

const large = measuring(`16px ${FONT}`), small = measuring(`11px ${FONT}`);

const RIGHT_TO_LEFT = /[\u0590-\u08ff\ufb1d-\ufdff\ufe70-\ufefc\u{10800}-\u{10fff}\u{1e800}-\u{1efff}]/u;

/** Whether most letters of a text are of scripts that run from right to left. */
export function runsLeft(text) {
  if (!RIGHT_TO_LEFT.test(text)) return false;
  const letters = text.match(/\p{L}/gu) ?? [];
  return letters.filter(letter => RIGHT_TO_LEFT.test(letter)).length * 2 > letters.length;
}

function setAll(node, attributes) {
  for (const [key, value] of Object.entries(attributes)) node.setAttribute(key, value);
}

function svg(name, attributes, text) {
  const node = document.createElementNS(NS, name);
  setAll(node, attributes);
  if (text !== undefined) node.textContent = text;
  return node;
}

// ---- columns

const relationOf = link => link.slice(link.indexOf(':') + 1);
const headOf = link => link.slice(0, link.indexOf(':'));

/** The width of a row's column: that of its widest text. */
function widthOf({ kind, fields }, links) {
  const labels = [fields[3], ...(kind === 'word' ? [fields[7]] : []), ...links.map(relationOf)];
  return GAP + Math.max(20, large(fields[1]), ...labels.map(small));
}

/** Makes the columns of a range wide enough for its form. */
function widen(columns, { fields, from, to }) {
  const inner = columns.slice(from, to + 1), sum = inner.reduce((all, column) => all + column.width, 0);
  const missing = large(fields[1]) + GAP - sum;
  if (missing > 0) inner.forEach(column => { column.width += missing / inner.length; });
}

/** Gives each column the `x` of its middle, from the right where the text runs so. Answers the width of all. */
function line(columns, isLeftward) {
  let end = EDGE;
  for (const column of columns) {
    column.x = end + column.width / 2;
    end += column.width;
  }
  end += EDGE;
  if (isLeftward) columns.forEach(column => { column.x = end - column.x; });
  return end;
}

// ---- arcs

/** The arcs by their head and the side on which they leave it. */
function bySide(arcs) {
  return [...Map.groupBy(arcs, arc => arc.from * 2 + (arc.to > arc.from ? 1 : 0)).values()];
}

/** Arcs that share a height, with the first and the last column that they span. */
function fans(arcs) {
  return bySide(arcs).flatMap(side => (side.length > FAN ? [side] : side.map(arc => [arc]))).map(fan => {
    const ends = fan.flatMap(arc => [arc.from, arc.to]);
    return { fan, first: Math.min(...ends), last: Math.max(...ends) };
  });
}

/** Gives each arc a level above all that it spans, shorter ones first. Answers the highest level. */
function stack(arcs, count) {
  const taken = new Uint16Array(count);
  const byLength = fans(arcs).sort((p, q) => (p.last - p.first) - (q.last - q.first) || p.first - q.first);
  for (const { fan, first, last } of byLength) {
    const level = 1 + taken.subarray(first, last).reduce((most, under) => Math.max(most, under), 0);
    taken.fill(level, first, last);
    fan.forEach(arc => { arc.level = level; });
  }
  return taken.reduce((most, level) => Math.max(most, level), 0);
}

/** Where each arc leaves its head: side by side, the highest next to the middle. */
function spread(arcs, columns) {
  for (const side of bySide(arcs)) {
    const head = columns[side[0].from], levels = [...new Set(side.map(arc => arc.level))].sort((p, q) => q - p);
    const step = Math.min(4, (head.width / 2 - 4) / levels.length);
    for (const arc of side) {
      arc.start = head.x + Math.sign(columns[arc.to].x - head.x) * step * (levels.indexOf(arc.level) + 1);
    }
  }
}

/** The path of an arc: from its head at `y` to the height `far`, across, and to its dependent at `end`. */
function bend(x1, x2, y, far, end) {
  const r = Math.min(7, Math.abs(x2 - x1) / 2, Math.abs(far - y)), right = Math.sign(x2 - x1), up = Math.sign(far - y);
  const before = far - up * r;
  return `M${x1} ${y}V${before}Q${x1} ${far} ${x1 + right * r} ${far}H${x2 - right * r}Q${x2} ${far} ${x2} ${before}V${end}`;
}

/** The head of an arrow, which points down where `way` is 1 and up where it is -1. */
const tip = (x, y, way) => `M${x - 3.5} ${y - 6 * way}L${x} ${y}L${x + 3.5} ${y - 6 * way}Z`;

// ---- where all is

/** The arcs of HEAD, between columns. */
function basicArcs(nodes, at) {
  return nodes.flatMap((row, to) => {
    const from = at.get(row.fields[6]);
    return row.kind === 'word' && from !== undefined && from !== to ? [{ from, to }] : [];
  });
}

/** The arcs of DEPS. One that says the same as HEAD and DEPREL is `isBasic`. */
function enhancedArcs(nodes, links, at) {
  return nodes.flatMap((row, to) => links[to].flatMap((link, i) => {
    const from = at.get(headOf(link));
    return from === undefined || from === to ? [] : [{ from, to, line: i, isBasic: link === `${row.fields[6]}:${row.fields[7]}` }];
  }));
}

/** The ranges whose words are there, with the columns of their first and last word. */
function rangesOf(rows, at) {
  return rows.filter(row => row.kind === 'span').flatMap(row => {
    const [from, to] = [at.get(String(row.first)), at.get(String(row.last))];
    return from === undefined || to === undefined ? [] : [{ ...row, from, to }];
  });
}

/** Where all parts of the picture are. */
function layout(rows, isEnhanced) {
  const nodes = rows.filter(row => row.kind === 'word' || row.kind === 'empty');
  const isLeftward = runsLeft(nodes.map(row => row.fields[1]).join(''));
  const at = new Map(nodes.map((row, i) => [row.id, i]));
  const links = nodes.map(row => (isEnhanced && row.fields[8] !== '_' ? row.fields[8].split('|') : []));
  const columns = nodes.map((row, i) => ({ width: widthOf(row, links[i]) })), ranges = rangesOf(rows, at);
  ranges.forEach(range => widen(columns, range));
  const width = Math.ceil(line(columns, isLeftward));
  const arcs = basicArcs(nodes, at), below = enhancedArcs(nodes, links, at);
  const levels = stack(arcs, nodes.length), levelsBelow = stack(below, nodes.length);
  spread(arcs, columns);
  spread(below, columns);
  // From above: the arcs, the relations at `base`, the forms, the ranges, the enhanced relations from `foot`, their arcs.
  const level = Math.min(LEVEL, TALLEST / Math.max(1, levels)), levelBelow = Math.min(LEVEL_BELOW, TALLEST / Math.max(1, levelsBelow));
  const base = 26 + levels * level, form = base + 36, foot = form + 34 + (ranges.length ? RANGE_LINE : 0);
  const floor = foot + Math.max(0, ...links.map(items => items.length)) * LINE + 6;
  const height = Math.ceil(isEnhanced ? floor + levelsBelow * levelBelow + 10 : foot + 4);
  return { nodes, at, links, columns, ranges, arcs, below, isLeftward, width, height, level, levelBelow, base, form, foot, floor };
}

// ---- what is drawn

/** What a screen reader says of a word: its number, form, tag, and what it depends on. */
function nameOf({ nodes, at }, { kind, id, fields }) {
  const head = nodes[at.get(fields[6])], tag = `${id} ${fields[1]}, ${fields[3]}`;
  if (kind === 'empty') return `${tag}, empty node`;
  if (fields[6] === '0') return `${tag}, ${fields[7]}`;
  return `${tag}, ${fields[7]} of ${head ? `${head.id} ${head.fields[1]}` : 'no word'}`;
}

/** A word without its texts, at the heights of the picture. To copy it is faster than to make one. */
function wordAt({ base, form }) {
  const group = svg('g', { role: 'listitem' });
  group.append(
    svg('rect', { y: form - 18, height: 24, rx: 4 }),
    svg('text', { y: form, class: 'form' }),
    svg('text', { y: form + 17, class: 'tag' }),
    svg('text', { y: form + 29, class: 'id' }),
    svg('text', { y: base + 13, class: 'relation' }));
  return group;
}

/** Draws a word as a copy of `model`. */
function drawWord(place, model, row, i, isHit) {
  const { x, width } = place.columns[i], { kind, fields } = row, group = model.cloneNode(true);
  group.setAttribute('class', isHit ? `word ${kind} hit` : `word ${kind}`);
  group.setAttribute('aria-label', nameOf(place, row));
  group.setAttribute('data-at', i);
  let part = group.firstChild;
  part.setAttribute('x', x - width / 2 + 2);
  part.setAttribute('width', width - 4);
  for (const field of [1, 3, 0, 7]) {
    part = part.nextSibling;
    part.setAttribute('x', x);
    part.textContent = fields[field];
  }
  if (kind === 'empty') part.remove();
  return group;
}

/** The left and the right edge of some columns. */
const edges = columns => [Math.min(...columns.map(c => c.x - c.width / 2)), Math.max(...columns.map(c => c.x + c.width / 2))];

/** A brace below the words of a range, with its form. */
function drawRange({ columns, form }, { from, to, fields }) {
  const [left, right] = edges([columns[from], columns[to]]), y = form + 36;
  return [
    svg('path', { d: `M${left + 4} ${y - 4}V${y}H${right - 4}V${y - 4}`, class: 'brace' }),
    svg('text', { x: (left + right) / 2, y: y + 17, class: 'form range' }, fields[1]),
  ];
}

/** Lines and arrows above the words: to each root, and from each head to its dependent. Each has the columns that it joins. */
function linesAbove({ nodes, columns, arcs, base, level }) {
  const roots = nodes.flatMap((row, to) => (row.kind === 'word' && row.fields[6] === '0' ? [to] : []));
  return [
    ...roots.map(to => ({ kind: 'root', to, path: `M${columns[to].x} 8V${base}` })),
    ...arcs.map(arc => ({ ...arc, kind: 'arc', path: bend(arc.start, columns[arc.to].x, base, base - arc.level * level, base) })),
    ...[...roots.map(to => ({ to })), ...arcs].map(arc => ({ ...arc, kind: 'tips', path: tip(columns[arc.to].x, base, 1) })),
  ];
}

/** The arcs of DEPS. Several that end at one word end side by side. */
function linesBelow({ columns, links, below, foot, floor, levelBelow }) {
  const under = at => foot + links[at].length * LINE + 3;
  const endOf = arc => columns[arc.to].x + (arc.line - (links[arc.to].length - 1) / 2) * 6;
  return [
    ...below.map(arc => ({
      ...arc, kind: arc.isBasic ? 'deep basic' : 'deep',
      path: bend(arc.start, endOf(arc), under(arc.from), floor + arc.level * levelBelow, under(arc.to)),
    })),
    ...below.map(arc => ({ ...arc, kind: 'tips deep', path: tip(endOf(arc), under(arc.to), -1) })),
  ];
}

/** Draws lines, many of a kind as one path: a browser takes longer for a thousand paths. */
function drawLines(lines) {
  return [...Map.groupBy(lines, line => line.kind)].flatMap(([kind, all]) => inSheets(all)
    .map(some => svg('path', { class: kind, d: some.map(line => line.path).join('') })));
}

function drawLinks({ columns, links, foot }, i) {
  return links[i].map((link, k) => svg('text', { x: columns[i].x, y: foot + 11 + k * LINE, class: 'relation' }, relationOf(link)));
}

// ---- sheets

/**
 * A sheet of the picture. Its place is given in parts of the whole, so that all shrink together where it is printed. It is
 * an element of HTML, since Firefox lays out each `svg` wherever it is.
 */
function sheet({ width, height }, left, right, attributes, parts) {
  const node = document.createElement('div');
  const inside = svg('svg', { viewBox: `${left} 0 ${right - left} ${height}`, preserveAspectRatio: 'none', role: 'none' });
  setAll(node, attributes);
  node.style.left = `${100 * left / width}%`;
  node.style.width = `${100 * (right - left) / width}%`;
  inside.append(...parts);
  node.append(inside);
  return node;
}

/** The sheet of all arcs, with the ranges, which may belong to words of two sheets. `lifted` is for arcs that are lifted. */
function arcSheet(place, lines, lifted) {
  const arcs = svg('g', { class: 'arcs' });
  arcs.append(...drawLines(lines));
  return sheet(place, 0, place.width, { 'aria-hidden': 'true' }, [arcs, lifted, ...place.ranges.flatMap(range => drawRange(place, range))]);
}

/** A sheet of words, from one place on. */
function wordSheet(place, model, rows, from, isHit) {
  const [left, right] = edges(place.columns.slice(from, from + rows.length)), labels = svg('g', { 'aria-hidden': 'true' });
  labels.append(...rows.flatMap((_, i) => drawLinks(place, from + i)));
  return sheet(place, Math.floor(left), Math.ceil(right), { class: 'words', role: 'none' },
    [...rows.map((row, i) => drawWord(place, model, row, from + i, isHit(row))), labels]);
}

/** Lifts the arcs of the word under the pointer: they are drawn once more, above the others. */
function lifting(lines, lifted) {
  return event => {
    const at = Number(event.target.closest('.word')?.dataset.at ?? NaN);
    lifted.replaceChildren(...drawLines(lines.filter(({ from, to }) => from === at || to === at)));
  };
}

/** Lets a word be dragged onto the word that shall be its head. A finger scrolls instead. */
function dragging(picture, nodes, onHead) {
  let held = null;
  const wordAt = event => event.target.closest('.word:not(.empty)');
  picture.addEventListener('pointerdown', event => { held = event.pointerType === 'mouse' ? wordAt(event) : null; });
  picture.addEventListener('pointerup', event => {
    const head = wordAt(event);
    if (held && head && held !== head) onHead(nodes[held.dataset.at].at, nodes[head.dataset.at].id);
    held = null;
  });
}

/**
 * The tree of a sentence's rows. `isEnhanced` draws DEPS below the words, `hit` marks the words from one number to
 * another. `onPick` is given the line of a word that is clicked, `onHead` the line of a word that is dragged onto
 * another, and the ID of that.
 */
export function drawTree(rows, { isEnhanced, hit, onPick, onHead }) {
  const place = layout(rows, isEnhanced), lines = [...linesAbove(place), ...linesBelow(place)];
  const isHit = row => hit && row.kind === 'word' && row.first >= hit[0] && row.first <= hit[1];
  const picture = document.createElement('div'), model = wordAt(place), lifted = svg('g', { class: 'lifted' }), lift = lifting(lines, lifted);
  setAll(picture, { class: 'tree-picture', role: 'list', 'aria-label': `Dependency tree, ${place.nodes.length} words` });
  picture.style.width = `${place.width}px`;
  picture.style.aspectRatio = `${place.width} / ${place.height}`;
  picture.append(arcSheet(place, lines, lifted), ...inSheets(place.nodes).map((some, i) => wordSheet(place, model, some, i * SHEET, isHit)));
  picture.addEventListener('pointerover', lift);
  picture.addEventListener('pointerleave', lift);
  picture.addEventListener('click', event => {
    const word = event.target.closest('.word');
    if (word) onPick(place.nodes[word.dataset.at].at);
  });
  dragging(picture, place.nodes, onHead);
  return framed(picture, place.isLeftward);
}

/** A frame in which the picture scrolls sideways, from the right where the text runs so. */
function framed(picture, isLeftward) {
  const frame = document.createElement('div');
  frame.className = 'tree';
  frame.tabIndex = 0;
  frame.setAttribute('role', 'group');
  frame.setAttribute('aria-label', 'Dependency tree, scrolls sideways');
  if (isLeftward) frame.dir = 'rtl';
  frame.append(picture);
  return frame;
}
"##;
