//! The file edit.js of the page, as `deskview page` serves it.
//!
//! This module is generated: `tools/page --write` writes it from the folder page/. Change the file there, and never here.

/// The file edit.js.
pub const EDIT_JS: &str = r##"// The editor of a sentence: as a table, and as text.
//
// There is one text. The table shows its rows, and each change of a cell is a change of the text.

import { COLUMNS, button, el, heads, plural } from './desk.js';
import { diff, withField, withWord, withoutRow } from './conllu.js';
import { rowsOf } from './rows.js';
import { measuring } from './tree.js';

const LISTS = { UPOS: 'tags', DEPREL: 'relations' };
const PAGE = 15;
// Rows of a block, which is laid out only where it is seen.
const BLOCK = 50;
// What a cell has beside its text, and the bounds of its width. All in pixels.
const PADDING = 15, NARROWEST = 42, WIDEST = 576;
// Widths in the fonts of the table and of its head (page.css).
const MONO = 'ui-monospace, "DejaVu Sans Mono", "Noto Sans Mono", monospace';
const widthOf = measuring(`13px ${MONO}`), headWidthOf = measuring(`600 13.6px ${MONO}`);
const ASCII = /^[ -~]*$/;

// A row without its texts. To copy it is faster than to make one, and there may be a thousand.
const ROW = el('tr', { role: 'row' }, COLUMNS.map(() => el('td', { role: 'gridcell', tabindex: -1, dir: 'auto' })));

/** Writes a cell. Its label is for screen readers: Firefox gives them no text of a row that is not laid out. */
function write(td, text) {
  td.textContent = td.ariaLabel = text;
}

/** A row of the table. */
function tableRow({ kind, at, fields }) {
  const tr = ROW.cloneNode(true);
  tr.className = kind;
  tr.dataset.line = at;
  COLUMNS.forEach((_, i) => write(tr.children[i], fields[i] ?? ''));
  return tr;
}

/** The rows in blocks. */
function blocks(rows) {
  const found = [];
  for (let from = 0; from < rows.length; from += BLOCK) {
    found.push(el('tbody', { role: 'rowgroup' }, rows.slice(from, from + BLOCK).map(tableRow)));
  }
  return found;
}

/** How wide a column is: as its widest text, within bounds. ASCII letters are all of one width, so one such text is measured. */
function columnWidth(rows, i) {
  let longest = '', widest = headWidthOf(COLUMNS[i]);
  for (const { fields: { [i]: text = '' } } of rows) {
    if (!ASCII.test(text)) widest = Math.max(widest, widthOf(text));
    else if (text.length > longest.length) longest = text;
  }
  return between(NARROWEST, Math.ceil(Math.max(widest, widthOf(longest))) + PADDING, WIDEST);
}

/** Where a key leads from a cell, or undefined. */
function step(key, row, column) {
  switch (key) {
    case 'ArrowUp': return [row - 1, column];
    case 'ArrowDown': return [row + 1, column];
    case 'ArrowLeft': return [row, column - 1];
    case 'ArrowRight': return [row, column + 1];
    case 'Home': return [row, 0];
    case 'End': return [row, COLUMNS.length - 1];
    case 'PageUp': return [row - PAGE, column];
    case 'PageDown': return [row + PAGE, column];
    default: return undefined;
  }
}

/** The place of a row, from 0. The first row of the table is its head. */
const placeOf = tr => tr.rowIndex - 1;

const isOneCharacter = key => [...key].length === 1 && key !== ' ';
const between = (least, value, most) => Math.max(least, Math.min(value, most));

/** An editor. `node` is its element, which `show` fills, and `text` what is in it. `onChange` is called after each change. */
export class Editor {
  #onChange;
  #text;
  #at = [0, 1];                         // row and column of the one cell that is in the order of the Tab key
  #head = heads(COLUMNS);
  #grid = el('table', { class: 'grid', role: 'grid', 'aria-label': 'The sentence as a table. Arrows move, Enter or a letter edits, Escape gives up' },
    this.#head);
  #area = el('textarea', { class: 'conllu', wrap: 'off', dir: 'ltr', spellcheck: 'false', rows: 12, 'aria-label': 'The sentence as CoNLL-U' });
  #note = el('p', { class: 'quiet' });
  #tools = el('span', { class: 'tools' },
    button({ onclick: () => this.#addWord() }, 'Add a word after this one'),
    button({ onclick: () => this.#removeRow() }, 'Remove this row'));

  constructor(text, onChange) {
    this.#text = text;
    this.#onChange = onChange;
    const tab = (name, label) => el('label', { class: 'tab' },
      el('input', { type: 'radio', name: 'as', value: name, checked: name === 'table', onchange: () => this.#showAs(name) }), label);
    this.node = el('section', { class: 'editor', 'aria-label': 'Editor' },
      el('div', { class: 'tools' }, tab('table', 'Table'), tab('text', 'CoNLL-U'), this.#tools), this.#note,
      el('div', { class: 'sideways' }, this.#grid), this.#area);
    this.#area.addEventListener('input', () => this.#change(this.#area.value));
    this.#grid.addEventListener('focusin', event => { if (event.target.matches('td')) this.#enter(event.target); });
    this.#grid.addEventListener('dblclick', event => { if (event.target.matches('td')) this.#edit(event.target); });
    this.#grid.addEventListener('keydown', event => { if (event.target.matches('td')) this.#press(event); });
  }

  /** Fills the editor. */
  show() {
    this.#showAs('table');
  }

  get text() {
    return this.#text;
  }

  set text(value) {
    this.#area.value = value;
    this.#text = value;
    this.#fill();
    this.#onChange();
  }

  /** Goes to the row of a line of the text. */
  pick(line) {
    const tr = this.#grid.querySelector(`tr[data-line="${line}"]`);
    if (!tr || this.#grid.hidden) return;
    this.#go(placeOf(tr), this.#at[1]);
    this.#cell.scrollIntoView({ block: 'nearest' });
  }

  /** The row at a place, as `placeOf` counts. */
  #row(place) {
    return this.#grid.rows[place + 1];
  }

  get #cell() {
    return this.#row(this.#at[0])?.cells[this.#at[1]];
  }

  #change(text) {
    this.#text = text;
    this.#onChange();
  }

  #showAs(name) {
    if (name === 'table') this.#fill();
    else this.#area.value = this.#text;
    this.#grid.hidden = this.#tools.hidden = name !== 'table';
    this.#area.hidden = name === 'table';
  }

  #fill() {
    const rows = rowsOf(this.#text), comments = this.#text.split('\n').filter(line => line.startsWith('#')).length;
    this.#grid.replaceChildren(this.#head, ...blocks(rows));
    this.#fit(rows);
    this.#at[0] = between(0, this.#at[0], Math.max(0, rows.length - 1));
    this.#cell?.setAttribute('tabindex', 0);
    this.#note.textContent = `${plural(rows.length, 'row')}, and ${plural(comments, 'comment')} under CoNLL-U. sent_id and text have to stay as they are.`;
  }

  /** Gives the columns their widths. The blocks are laid out one by one, and have to agree. */
  #fit(rows) {
    const widths = COLUMNS.map((_, i) => columnWidth(rows, i));
    this.#grid.style.width = `${widths.reduce((all, width) => all + width, 0)}px`;
    this.#grid.style.setProperty('--columns', widths.map(width => `minmax(0, ${width}fr)`).join(' '));
  }

  #enter(td) {
    this.#cell?.setAttribute('tabindex', -1);
    this.#at = [placeOf(td.parentNode), td.cellIndex];
    td.setAttribute('tabindex', 0);
  }

  #go(row, column) {
    this.#cell?.setAttribute('tabindex', -1);
    this.#at = [between(0, row, this.#grid.rows.length - 2), between(0, column, COLUMNS.length - 1)];
    this.#cell?.setAttribute('tabindex', 0);
    this.#cell?.focus();
  }

  #press(event) {
    if (event.ctrlKey || event.metaKey || event.altKey) return;
    const [row, column] = this.#at, to = step(event.key, row, column);
    if (to) this.#go(...to);
    else if (event.key === 'Enter' || event.key === 'F2') this.#edit(event.target);
    else if (event.key === 'Delete') this.#put(event.target, '');
    else if (isOneCharacter(event.key)) this.#edit(event.target, event.key);
    else return;
    event.preventDefault();
  }

  /** Puts a value into a cell, and so into the text. An empty one becomes `_`. */
  #put(td, value) {
    const line = Number(td.parentNode.dataset.line);
    const text = withField(this.#text, line, td.cellIndex, value);
    write(td, text.split('\n')[line].split('\t')[td.cellIndex]);
    this.#fit(rowsOf(text));
    this.#change(text);
  }

  /** Opens a cell. `typed` is the letter with which the user began; without it the old value is there, and is marked. */
  #edit(td, typed) {
    const [row, column] = [placeOf(td.parentNode), td.cellIndex], before = td.textContent;
    const input = el('input', {
      value: typed ?? before, list: LISTS[COLUMNS[column]], dir: 'auto', spellcheck: 'false', 'aria-label': `${COLUMNS[column]} of row ${row + 1}`,
    });
    let isOpen = true;                  // an element that is removed loses the focus, which closes the cell once more
    const close = isKept => {
      if (!isOpen) return;
      isOpen = false;
      write(td, before);
      if (isKept && input.value !== before) this.#put(td, input.value);
    };
    input.addEventListener('blur', () => close(true));
    input.addEventListener('keydown', event => {
      event.stopPropagation();
      if (event.isComposing || !['Enter', 'Tab', 'Escape'].includes(event.key)) return;
      event.preventDefault();
      close(event.key !== 'Escape');
      if (event.key === 'Tab') this.#go(row, column + (event.shiftKey ? -1 : 1));
      else this.#go(row + (event.key === 'Enter' ? 1 : 0), column);
    });
    td.replaceChildren(input);
    input.focus();
    if (typed === undefined) input.select();
    else input.setSelectionRange(typed.length, typed.length);
  }

  #addWord() {
    const tr = this.#row(this.#at[0]);
    if (tr?.classList.contains('word')) this.#reword(withWord(this.#text, Number(tr.dataset.line)), 1);
  }

  #removeRow() {
    const tr = this.#row(this.#at[0]);
    if (tr) this.#reword(withoutRow(this.#text, Number(tr.dataset.line)), 0);
  }

  #reword(text, down) {
    this.#text = text;
    this.#fill();
    this.#onChange();
    this.#go(this.#at[0] + down, 1);
  }
}

// ---- two texts beside each other

/** The fields of a line. Those that differ from the other line's are marked. */
function marked(line, other) {
  const others = other.split('\t');
  return line.split('\t').flatMap((field, i) => [i ? '\t' : null, field === (others[i] ?? '') ? field : el('mark', {}, field)]);
}

function row([kind, a, b]) {
  const sides = kind === 'turned' ? [marked(a, b), marked(b, a)] : [a, b];
  return el('tr', { class: kind }, sides.map(side => el('td', { dir: 'ltr' }, side)));
}

const unchanged = count => el('tr', { class: 'same' }, el('td', { colspan: 2 }, count === 1 ? 'one line the same' : `${count} lines the same`));

/** Two texts beside each other. What differs is marked, and of lines that are the same only the number is shown. */
export function besides(a, b, nameOfA, nameOfB) {
  const body = el('tbody');
  let count = 0;
  const flush = () => {
    if (count) body.append(unchanged(count));
    count = 0;
  };
  for (const change of diff(a, b)) {
    if (change[0] === 'same') {
      count++;
    } else {
      flush();
      body.append(row(change));
    }
  }
  flush();
  return el('table', { class: 'diff' }, heads([nameOfA, nameOfB]), body);
}
"##;
